//! The position where the answer of a request resumes, and its digests (SHA-256, FIPS 180-4) of a dump and a request.

ghost use Rattle.std.specs.Prelude.{◌≡◌, ◌++◌, ◌+◌, ◌≤◌, IfErr, IfOk, List, None, Ok, Some, length, string_bytes, ℕ};
ghost use Rattle.arrayvec.specs.ArrayVec.{array_vec_len};
ghost use Rattle.base64.specs.Engines.{standard};
ghost use Rattle.base64.specs.GeneralPurpose.{decode_of, encode_of};
ghost use Rattle.sha2.specs.Sha256.{sha256};
ghost use Rattle.bd_cursor_request.specs.Token.{token_bytes, token_digest, token_in, token_of, token_text};
ghost use Rattle.bd_cursor_request.specs.declared.results.Refused.TheVariants.{BadToken};

use crate::request::Request;
use crate::results::Refused;
use arrayvec::ArrayVec;
use base64::engine::general_purpose::STANDARD;
use bd_value::NoMemory;
use sha2::{Digest, Sha256};
use std::alloc::Global;

/// How many bytes a token has; its text has 60 characters.
const BYTES: usize = 45;

const CHARACTERS: usize = 60;

/// The first byte of a token.
const VERSION: u8 = 1;

/// The position where the answer of a request resumes: after which document, and how many were returned before.
#[derive(Clone, Copy, Debug, PartialEq, Eq)]
pub struct Token {
    /// How many documents were returned since the start. It stops at the greatest 64-bit number.
    pub given: u64,
    /// The number of the last of them.
    pub last: u32,
    /// The digest of its dump and request.
    pub digest: [u8; 32],
}

impl Token {
    /// Its text: 60 characters of base64. It fails only if memory runs out.
    pub fn text(&self, alloc: Global) -> Result<String, NoMemory>
        ensures text { IfOk result (λ t. string_bytes t ≡ token_text self.now) }
        ensures size { IfOk result (λ t. length (string_bytes t) ≡ 60) }
        ensures read_back { IfOk result (λ t. token_of (string_bytes t) ≡ Some self.now) }
    {
        let bytes = bytes_of(self.given, self.last, &self.digest);
        let text = encoded(alloc, &bytes)?;
        Ok(text)
    }

    /// The characters of its text. It takes no memory.
    pub fn characters(&self) -> [u8; CHARACTERS]
        ensures { result ≡ token_text self.now }
    {
        let bytes = bytes_of(self.given, self.last, &self.digest);
        let mut text = [0; CHARACTERS];
        match STANDARD.encode_slice(&bytes, &mut text) {
            Ok(_) => text,
            Err(_) => unreachable!(),
        }
    }

    /// The token in a text. It takes no memory.
    ///
    /// # Errors
    ///
    /// `BadToken` if it is not the base64, standard and padded, of 45 bytes of which the first is 1.
    pub fn parse(text: &str) -> Result<Token, Refused>
        ensures token { IfOk result (λ t. token_of text.now ≡ Some t) }
        ensures fault { IfErr result (λ r. (r ≡ BadToken) × (token_of text.now ≡ None)) }
    {
        match decoded(text.as_bytes()) {
            Some(token) => Ok(token),
            None => Err(Refused::BadToken),
        }
    }
}

/// The bytes of a token.
fn bytes_of(given: u64, last: u32, digest: &[u8; 32]) -> ArrayVec<u8, BYTES>
    ensures { result.items
        ≡ token_bytes (record { given = given; last = last; digest = digest.now }) }
{
    let mut bytes = ArrayVec::new();
    bytes.push(VERSION);
    append(&given.to_le_bytes(), &mut bytes);
    append(&last.to_le_bytes(), &mut bytes);
    append(digest, &mut bytes);
    bytes
}

/// Appends bytes that fit.
fn append(part: &[u8], bytes: &mut ArrayVec<u8, BYTES>)
    requires { array_vec_len bytes.old + length part.now ≤ 45 }
    ensures items { bytes.new.items ≡ bytes.old.items ++ part.now }
    ensures len { array_vec_len bytes.new ≡ array_vec_len bytes.old + length part.now }
{
    if bytes.try_extend_from_slice(part).is_err() {
        unreachable!()
    }
}

/// Bytes in base64.
fn encoded(alloc: Global, bytes: &[u8]) -> Result<String, NoMemory>
    ensures text { IfOk result (λ t. string_bytes t ≡ encode_of standard bytes.now) }
    ensures decoded { IfOk result (λ t. decode_of standard (string_bytes t) ≡ Ok bytes.now) }
{
    Ok(STANDARD.encode(alloc, bytes)?)
}

/// The token in the base64 of 45 bytes.
fn decoded(text: &[u8]) -> Option<Token>
    ensures { result ≡ token_of text.now }
{
    if text.len() != CHARACTERS {
        return None;
    }
    let mut bytes = [0; BYTES];
    match STANDARD.decode_slice(text, &mut bytes) {
        Ok(BYTES) => token_in(&bytes),
        _ => None,
    }
}

/// The token in its bytes.
fn token_in(bytes: &[u8; BYTES]) -> Option<Token>
    ensures { result ≡ token_in bytes.now }
{
    let (version, rest) = bytes.split_first()?;
    if *version != VERSION {
        return None;
    }
    let (given, rest) = rest.split_first_chunk::<8>()?;
    let (last, rest) = rest.split_first_chunk::<4>()?;
    let (digest, _) = rest.split_first_chunk::<32>()?;
    Some(Token {
        given: u64::from_le_bytes(*given),
        last: u32::from_le_bytes(*last),
        digest: *digest,
    })
}

/// The digest of the bytes of a dump. It takes no memory.
pub fn dump_digest(bytes: &[u8]) -> [u8; 32]
    ensures { result ≡ sha256 bytes.now }
{
    let mut hasher = Sha256::new();
    hasher.update(bytes);
    hasher.finalize()
}

/// The digest in the tokens of a request: that of the digest of the dump and the text of the request. It takes no memory.
pub fn request_digest(dump: &[u8; 32], request: &Request) -> [u8; 32]
    ensures digest { result ≡ sha256 (dump.now ++ request.now.text.items) }
    ensures of_dump { (bytes : List ℕ) →
        dump.now ≡ sha256 bytes → result ≡ token_digest bytes request.now.text.items }
{
    let mut hasher = Sha256::new();
    hasher.update(dump.as_slice());
    hasher.update(request.text.as_slice());
    hasher.finalize()
}

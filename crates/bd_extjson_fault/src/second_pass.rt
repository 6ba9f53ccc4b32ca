//! Why a text is not a document, and where: a pass over the whole text, for texts that are refused.
//!
//! If the text is not JSON, the pass ends there. The first fault of the tree is remembered until all of the text is known to
//! be JSON.
ghost use Rattle.std.specs.Prelude.{◌≡◌, ◌≢◌, ◌-◌, ◌<◌, ◌≤◌, ◌==◌, ℕ, IfErr, IfOk, IsOk, OnErr, OnOk, MatchResult, Some, None, Ok, Err, if◌then◌else◌, [], ◌∷◌, map, drop, length, IfSome, option_and_then};
ghost use Rattle.std.specs.Option.{option_or};
ghost use Rattle.std.specs.Str.{IsUtf8};
ghost use Rattle.bd_value.specs.Limits.{most_brackets, most_levels};
ghost use Rattle.bd_extjson_wrapper.specs.Wrapper.{is_code_name, is_scope_name};
ghost use Rattle.bd_extjson_fault.specs.JsonFault.{IsLocated, ReportsBadUtf8};
ghost use Rattle.bd_extjson_fault.specs.JsonSyntax.{begins, beyond_white, beyond_word, beyond_number, beyond_scalar, beyond_next};
ghost use Rattle.bd_extjson_fault.specs.inside.JsonSyntax.{IsAnswer};
ghost use Rattle.bd_extjson_fault.specs.JsonSyntax.{beyond_array, beyond_object, beyond_member, beyond_value, beyond_text, beyond_parts};
ghost use Rattle.bd_extjson_fault.specs.TreeFault.{opens_document, is_string, first_wrapper, fault_at, zero_fault, part_of};
ghost use Rattle.bd_extjson_fault.specs.TreeFault.{Finds, scalar_fault, array_fault, object_fault, document_fault, member_fault};
ghost use Rattle.bd_extjson_fault.specs.TreeFault.{value_fault, first_in, parts_from, code_fault, members_in, scope_fault};
ghost use Rattle.bd_extjson_fault.specs.inside.SecondPass.{Passes, IsWithin, found, found_in_scope, levels_inside, depth_fault};
ghost use Rattle.bd_extjson_fault.specs.TextFault.{text_fault, stop_in, fault_in, tree_or_none};
ghost use Rattle.bd_extjson_fault.specs.declared.json_fault.JsonFaultKind.TheVariants as kinds;
ghost use Rattle.bd_extjson_fault.specs.declared.second_pass.Halt.TheVariants as halts;
ghost use Rattle.bd_extjson_fault.specs.declared.skip.Stop.{Stop};
ghost use Rattle.bd_extjson_fault.specs.declared.tree_fault.TreeFaultKind.TheVariants.{BadWrapper};

use crate::json_fault::{JsonFault, JsonFaultKind};
use crate::skip::{
    Key, Stop, StopKind, begins, skip_byte, skip_key, skip_number, skip_string, skip_white,
    skip_word,
};
use crate::tree_fault::{TreeFault, TreeFaultKind, number_fault, read_name, wrapper_fault};
use bd_extjson_wrapper::Wrapper;
use bd_value::{MOST_BRACKETS, MOST_LEVELS};
use json::Scratch;
use std::alloc::{AllocError, Global};

/// The text that bytes are. All that reads or diagnoses them then takes this text, and checks them no more.
///
/// # Errors
/// `Syntax` at the first byte that is not UTF-8.
pub fn text_of(bytes: &[u8]) -> Result<&str, JsonFault>
    ensures ok { IfOk result (λ text. (text.now ≡ bytes.now) × IsUtf8 bytes.now) }
    ensures bad { OnErr result (¬ (IsUtf8 bytes.now)) }
    ensures offset { IfErr result (IsLocated (length bytes.now)) }
    ensures utf8 { IfErr result (ReportsBadUtf8 bytes.now) }
    ensures is { IfErr result (λ f. f ≡ text_fault bytes.now) }
{
    match simdutf8::compat::from_utf8(bytes) {
        Ok(text) => Ok(text),
        Err(error) => Err(syntax_at(error.valid_up_to())),
    }
}

/// The first fault of a text: of its JSON, of its tree from left to right, and last that it is not a document. `text_of` finds
/// those of its UTF-8.
///
/// Call it for texts that are refused. If it finds no fault, it returns `Syntax` at the text's end.
pub fn diagnose(alloc: Global, text: &str) -> JsonFault
    ensures offset { IsLocated (length text.now) result }
    // The fault is that of the text, unless memory runs out.
    ensures is { result.kind ≢ kinds.NoMemory → result ≡ text_fault text.now }
    // A text that is not JSON is reported as such, since that takes no memory.
    ensures syntax { (stop : Stop) → beyond_text text.now ≡ Err stop →
        result ≡ stop_in (length text.now) stop }
{
    match pass_over(alloc, text) {
        Ok(None) => syntax_at(text.len()),
        Ok(Some(fault)) => fault,
        Err(Halt::NoJson(stop)) => stop_in(stop, text.len()),
        Err(Halt::NoMemory) => JsonFault {
            kind: JsonFaultKind::NoMemory,
            at: 0,
        },
    }
}

/// The first fault of the tree of a text, or that it is not a document. The JSON is skipped first, which takes no memory.
fn pass_over(alloc: Global, text: &str) -> Result<Option<JsonFault>, Halt>
    ensures beyond { Passes result [] (beyond_text text.now) }
    ensures within { IfErr result (IsWithin (length text.now)) }
    ensures offset { IfOk result (λ f. IfSome f (IsLocated (length text.now))) }
    ensures first { IfOk result (λ f. f
        ≡ tree_or_none text.now (value_fault most_brackets most_levels text.now)) }
    ensures memory { result ≡ Err halts.NoMemory → beyond_text text.now ≡ Ok [] }
{
    Pass::new(alloc, text).whole(None)?;
    Pass::new(alloc, text).document()
}

fn syntax_at(at: usize) -> JsonFault
    ensures { result ≡ record { kind = kinds.Syntax; at = at } }
{
    JsonFault {
        kind: JsonFaultKind::Syntax,
        at: at as u64,
    }
}

/// The fault in a text of that length.
fn stop_in(stop: Stop, len: usize) -> JsonFault
    requires { stop.remaining ≤ len }
    ensures located { IsLocated len result }
    ensures is { result ≡ stop_in len stop }
{
    let kind = match stop.kind {
        StopKind::Syntax => JsonFaultKind::Syntax,
        StopKind::TooDeep => JsonFaultKind::TooDeep,
        StopKind::TrailingText => JsonFaultKind::TrailingText,
    };
    let at = (len - stop.remaining) as u64;
    JsonFault { kind, at }
}

/// The fault in a text of that length.
fn fault_in(fault: TreeFault, len: usize) -> JsonFault
    ensures located { IsLocated len result }
    ensures is { result ≡ fault_in len fault }
{
    let kind = match fault.kind {
        TreeFaultKind::TooDeep => JsonFaultKind::TooDeep,
        TreeFaultKind::BadWrapper => JsonFaultKind::BadWrapper,
        TreeFaultKind::NotInProfile => JsonFaultKind::NotInProfile,
        TreeFaultKind::NumberRange => JsonFaultKind::NumberRange,
        TreeFaultKind::NulInName => JsonFaultKind::NulInName,
    };
    let at = len.saturating_sub(fault.remaining) as u64;
    JsonFault { kind, at }
}

/// Why a pass ends before the text does.
#[derive(Clone, Copy, Drop)]
enum Halt {
    NoJson(Stop),
    NoMemory,
}

impl From<Stop> for Halt {
    ghost from_gives = { λ stop halt. halt ≡ halts.NoJson stop };

    fn from(stop: Stop) -> Halt {
        Halt::NoJson(stop)
    }
}

impl From<AllocError> for Halt {
    ghost from_gives = { λ _ halt. halt ≡ halts.NoMemory };

    fn from(_e: AllocError) -> Halt {
        Halt::NoMemory
    }
}

/// A member of an object.
#[derive(Clone, Copy, Drop)]
struct Part<'a> {
    /// The wrapper of its name.
    wrapper: Option<Wrapper>,
    /// The text after its colon.
    text: &'a [u8],
}

impl Part<'_> {
    fn is_code(&self) -> bool
        ensures { result ≡ is_code_name self.now.wrapper }
    {
        matches!(self.wrapper, Some(Wrapper::Code))
    }

    fn is_scope(&self) -> bool
        ensures { result ≡ is_scope_name self.now.wrapper }
    {
        matches!(self.wrapper, Some(Wrapper::Scope))
    }

    /// The fault of an object of this one member.
    fn fault_alone(&self, object: &[u8]) -> Option<TreeFault>
        ensures { (fault : ℕ → Finds) → (depth_left : ℕ)
            → result ≡ code_fault fault depth_left object.now
            ((self.now.wrapper, self.now.text.now) ∷ []) }
    {
        if self.is_code() {
            if is_string(self.text) {
                None
            } else {
                bad_wrapper(object)
            }
        } else {
            bad_wrapper(object)
        }
    }
}

fn bad_wrapper(object: &[u8]) -> Option<TreeFault>
    ensures { result ≡ fault_at object.now BadWrapper }
{
    Some(TreeFault::at(object, TreeFaultKind::BadWrapper))
}

/// Whether a string is next.
fn is_string(text: &[u8]) -> bool
    ensures { result ≡ is_string text.now }
{
    begins(skip_white(text), b'"')
}

/// A pass over a text, which is JSON so far.
#[derive(Drop)]
struct Pass<'a> {
    alloc: Global,
    scratch: Scratch,
    /// The text that is not skipped yet.
    rest: &'a [u8],
    /// The first fault of the tree.
    fault: Option<TreeFault>,
}

impl<'a> Pass<'a> {
    /// A pass over this text, which has skipped nothing.
    fn new(alloc: Global, text: &'a str) -> Pass<'a>
        ensures rest { result.rest.now ≡ text.now }
        ensures fault { result.fault ≡ None }
    {
        Pass {
            alloc,
            scratch: Scratch::new(alloc),
            rest: text.as_bytes(),
            fault: None,
        }
    }

    /// The first fault of the tree of the whole text, or that it is not a document.
    fn document(&mut self) -> Result<Option<JsonFault>, Halt>
        ensures beyond { Passes result [] (beyond_text self.old.rest.now) }
        ensures within { IfErr result (IsWithin (length self.old.rest.now)) }
        ensures offset { IfOk result (λ f. IfSome f (IsLocated (length self.old.rest.now))) }
        ensures first { IfOk result (λ f. self.old.fault ≡ None
            → f ≡ tree_or_none self.old.rest.now
            (value_fault most_brackets most_levels self.old.rest.now)) }
    {
        let text = self.rest;
        self.whole(Some(MOST_LEVELS))?;
        if let Some(fault) = self.fault {
            return Ok(Some(fault_in(fault, text.len())));
        }
        if self.opens_document(text)? {
            return Ok(None);
        }
        Ok(Some(JsonFault {
            kind: JsonFaultKind::NotADocument,
            at: 0,
        }))
    }

    /// Skips the whole text, which must be one value. Faults of the tree are searched if there is a `depth_left`.
    #[tactic(auto, unfolding(crate::specs::JsonSyntax::beyond_text))]
    fn whole(&mut self, depth_left: Option<usize>) -> Result<(), Halt>
        ensures beyond { Passes result [] (beyond_text self.old.rest.now) }
        ensures within { IfErr result (IsWithin (length self.old.rest.now)) }
        ensures fault { OnOk result (self.new.fault ≡ found self.old.fault depth_left
            (λ r. value_fault most_brackets r self.old.rest.now)) }
        ensures memory { depth_left ≡ None → result ≢ Err halts.NoMemory }
    {
        self.value(MOST_BRACKETS, depth_left)?;
        let after = skip_white(self.rest);
        if !after.is_empty() {
            return Err(Halt::NoJson(Stop::at(after, StopKind::TrailingText)));
        }
        Ok(())
    }

    /// Whether an object that is not a wrapper is next.
    fn opens_document(&mut self, text: &'a [u8]) -> Result<bool, AllocError>
        ensures same { self.new.rest.now ≡ self.old.rest.now }
        ensures same_fault { self.new.fault ≡ self.old.fault }
        ensures reports { IfOk result (λ is. is ≡ opens_document text.now) }
    {
        let here = skip_white(text);
        if !begins(here, b'{') {
            return Ok(false);
        }
        Ok(self.first_wrapper(skip_byte(here))?.is_none())
    }

    /// Skips the next value, with at most `level` levels of brackets. Faults of the tree are searched if there is a
    /// `depth_left`: the number of levels that documents and arrays may nest.
    #[cycle(passing)]
    fn value(&mut self, level: usize, depth_left: Option<usize>) -> Result<(), Halt>
        ensures beyond { Passes result self.new.rest.now (beyond_value level self.old.rest.now) }
        ensures shorter { MatchResult result
            (λ u. length self.new.rest.now < length self.old.rest.now)
            (IsWithin (length self.old.rest.now)) }
        ensures fault { OnOk result (self.new.fault
            ≡ found self.old.fault depth_left (λ r. value_fault level r self.old.rest.now)) }
        ensures memory { depth_left ≡ None → result ≢ Err halts.NoMemory }
    {
        let here = skip_white(self.rest);
        let is_object = begins(here, b'{');
        if !is_object && !begins(here, b'[') {
            return Ok(self.scalar(here, depth_left)?);
        }
        if level == 0 {
            return Err(Halt::NoJson(Stop::at(here, StopKind::TooDeep)));
        }
        self.rest = skip_byte(here);
        if is_object {
            self.object(here, level - 1, depth_left)
        } else {
            self.array(here, level - 1, depth_left)
        }
    }

    /// Skips the value without brackets that the text begins with.
    #[tactic(auto, unfolding(crate::specs::JsonSyntax::beyond_scalar))]
    fn scalar(&mut self, text: &'a [u8], depth_left: Option<usize>) -> Result<(), Stop>
        ensures beyond { IsAnswer (λ u. self.new.rest.now) result (beyond_scalar text.now) }
        ensures shorter { MatchResult result
            (λ u. length self.new.rest.now < length text.now)
            (λ stop. stop.remaining ≤ length text.now) }
        ensures fault { OnOk result
            (self.new.fault ≡ found self.old.fault depth_left (λ r. scalar_fault text.now)) }
    {
        let [first, inside @ ..] = text else {
            return Err(Stop::syntax(text));
        };
        match *first {
            b'"' => self.rest = skip_string(inside)?,
            b't' => self.rest = skip_word(inside, b"rue")?,
            b'f' => self.rest = skip_word(inside, b"alse")?,
            b'n' => self.rest = skip_word(inside, b"ull")?,
            _ => return self.number(text, depth_left),
        }
        Ok(())
    }

    /// Skips the number that the text begins with.
    fn number(&mut self, text: &'a [u8], depth_left: Option<usize>) -> Result<(), Stop>
        ensures beyond { IsAnswer (λ u. self.new.rest.now) result (beyond_number text.now) }
        ensures shorter { MatchResult result
            (λ u. length self.new.rest.now < length text.now)
            (λ stop. stop.remaining ≤ length text.now) }
        ensures fault { OnOk result
            (self.new.fault ≡ found self.old.fault depth_left (λ r. scalar_fault text.now)) }
    {
        self.rest = skip_number(text)?;
        if depth_left.is_some() {
            let number = &text[..text.len() - self.rest.len()];
            self.note(text, number_fault(number));
        }
        Ok(())
    }

    /// Skips the array that the text begins with, whose bracket was skipped.
    #[cycle(passing)]
    fn array(&mut self, text: &'a [u8], level: usize, depth_left: Option<usize>) -> Result<(), Halt>
        ensures beyond { Passes result self.new.rest.now
            (beyond_array (beyond_value level) self.old.rest.now) }
        ensures shorter { MatchResult result
            (λ u. length self.new.rest.now ≤ length self.old.rest.now)
            (IsWithin (length self.old.rest.now)) }
        ensures fault { OnOk result (self.new.fault ≡ found self.old.fault depth_left
            (λ r. array_fault (beyond_value level) (value_fault level) r text.now
            self.old.rest.now)) }
        ensures memory { depth_left ≡ None → result ≢ Err halts.NoMemory }
    {
        let depth_left = self.deeper(text, depth_left);
        let mut more = !self.closes(b']');
        while more {
            self.value(level, depth_left)?;
            more = self.goes_on(b']')?;
        }
        Ok(())
    }

    /// Skips the object that the text begins with, whose brace was skipped: its first name makes it a wrapper or a document.
    #[cycle(passing)]
    fn object(
        &mut self,
        text: &'a [u8],
        level: usize,
        depth_left: Option<usize>,
    ) -> Result<(), Halt>
        requires { length self.old.rest.now ≤ length text.now }
        ensures beyond { Passes result self.new.rest.now
            (beyond_object (beyond_value level) self.old.rest.now) }
        ensures shorter { MatchResult result
            (λ u. length self.new.rest.now ≤ length self.old.rest.now)
            (IsWithin (length self.old.rest.now)) }
        ensures fault { OnOk result (self.new.fault ≡ found self.old.fault depth_left
            (λ r. object_fault (beyond_value level) (value_fault level) r text.now
            self.old.rest.now)) }
        ensures memory { depth_left ≡ None → result ≢ Err halts.NoMemory }
    {
        let Some(levels) = depth_left else {
            return self.members(text, level, depth_left);
        };
        match self.first_wrapper(self.rest)? {
            None => self.members(text, level, depth_left),
            Some(Wrapper::Code | Wrapper::Scope) => self.code(text, level, levels),
            Some(wrapper) => {
                self.members(text, level, None)?;
                let object = &text[..text.len() - self.rest.len()];
                let fault = wrapper_fault(self.alloc, wrapper, object, &mut self.scratch)?;
                self.note(text, fault);
                Ok(())
            }
        }
    }

    /// The wrapper of the first name of an object, in the text after the brace.
    #[tactic(auto, unfolding(crate::specs::TreeFault::first_wrapper))]
    fn first_wrapper(&mut self, inside: &'a [u8]) -> Result<Option<Wrapper>, AllocError>
        ensures same { self.new.rest.now ≡ self.old.rest.now }
        ensures same_fault { self.new.fault ≡ self.old.fault }
        ensures is { IfOk result (λ w. w ≡ first_wrapper inside.now) }
    {
        match skip_key(inside) {
            Ok(key) => Ok(read_name(self.alloc, key.quoted, &mut self.scratch)?.wrapper),
            Err(_) => Ok(None),
        }
    }

    /// Skips an object as a document, or as JSON alone.
    #[cycle(passing)]
    fn members(
        &mut self,
        text: &'a [u8],
        level: usize,
        depth_left: Option<usize>,
    ) -> Result<(), Halt>
        ensures beyond { Passes result self.new.rest.now
            (beyond_object (beyond_value level) self.old.rest.now) }
        ensures shorter { MatchResult result
            (λ u. length self.new.rest.now ≤ length self.old.rest.now)
            (IsWithin (length self.old.rest.now)) }
        ensures fault { OnOk result (self.new.fault ≡ found self.old.fault depth_left
            (λ r. document_fault (beyond_value level) (value_fault level) r text.now
            self.old.rest.now)) }
        ensures memory { depth_left ≡ None → result ≢ Err halts.NoMemory }
    {
        let depth_left = self.deeper(text, depth_left);
        if self.closes(b'}') {
            return Ok(());
        }
        self.more_members(level, depth_left)
    }

    /// Skips the members from here on, of which there is at least one.
    #[cycle(passing)]
    fn more_members(&mut self, level: usize, depth_left: Option<usize>) -> Result<(), Halt>
        ensures beyond { (n : ℕ) →
            length self.old.rest.now < n → Passes result self.new.rest.now (beyond_parts (λ b.
            b == 125) (beyond_member (beyond_value level)) n self.old.rest.now) }
        ensures shorter { MatchResult result
            (λ u. length self.new.rest.now ≤ length self.old.rest.now)
            (IsWithin (length self.old.rest.now)) }
        ensures fault { (n : ℕ) → length self.old.rest.now < n →
            OnOk result (self.new.fault ≡ found self.old.fault depth_left (λ r.
            first_in (member_fault (value_fault level r)) (parts_from (λ b.
            b == 125) (beyond_member (beyond_value level)) n self.old.rest.now))) }
        ensures memory { depth_left ≡ None → result ≢ Err halts.NoMemory }
    {
        let mut more = true;
        while more {
            let key = skip_key(self.rest)?;
            self.check_name(&key, depth_left)?;
            self.rest = key.rest;
            self.value(level, depth_left)?;
            more = self.goes_on(b'}')?;
        }
        Ok(())
    }

    /// Skips an object whose first name is `$code` or `$scope`.
    #[cycle(passing)]
    fn code(&mut self, text: &'a [u8], level: usize, levels: usize) -> Result<(), Halt>
        ensures beyond { Passes result self.new.rest.now
            (beyond_object (beyond_value level) self.old.rest.now) }
        ensures shorter { MatchResult result
            (λ u. length self.new.rest.now ≤ length self.old.rest.now)
            (IsWithin (length self.old.rest.now)) }
        ensures fault { OnOk result (self.new.fault ≡ option_or self.old.fault
            (code_fault (value_fault level) levels text.now
            (map part_of (members_in (beyond_value level) self.old.rest.now)))) }
    {
        let before = self.fault;
        self.fault = None;
        let fault = self.code_parts(text, level, levels)?;
        self.fault = before.or(fault);
        Ok(())
    }

    /// Skips its members, and returns its fault.
    #[cycle(passing)]
    fn code_parts(
        &mut self,
        text: &'a [u8],
        level: usize,
        levels: usize,
    ) -> Result<Option<TreeFault>, Halt>
        ensures beyond { Passes result self.new.rest.now
            (beyond_object (beyond_value level) self.old.rest.now) }
        ensures shorter { MatchResult result
            (λ u. length self.new.rest.now ≤ length self.old.rest.now)
            (IsWithin (length self.old.rest.now)) }
        ensures fault { IfOk result (λ f. self.old.fault ≡ None
            → f ≡ code_fault (value_fault level) levels text.now
            (map part_of (members_in (beyond_value level) self.old.rest.now))) }
    {
        if self.closes(b'}') {
            return Ok(bad_wrapper(text));
        }
        let first = self.code_part(level, levels)?;
        if !self.goes_on(b'}')? {
            return Ok(first.fault_alone(text));
        }
        let second = self.code_part(level, levels)?;
        if self.goes_on(b'}')? {
            self.more_members(level, None)?;
            return Ok(bad_wrapper(text));
        }
        Ok(self.pair_fault(text, levels, first, second)?)
    }

    /// Skips a member. Faults are searched in a scope, for which there is one level less.
    #[cycle(passing)]
    fn code_part(&mut self, level: usize, levels: usize) -> Result<Part<'a>, Halt>
        ensures beyond { Passes result self.new.rest.now
            (beyond_member (beyond_value level) self.old.rest.now) }
        ensures shorter { MatchResult result
            (λ u. length self.new.rest.now < length self.old.rest.now)
            (IsWithin (length self.old.rest.now)) }
        ensures part { IfOk result (λ p. (p.wrapper, p.text.now) ≡ part_of self.old.rest.now) }
        ensures fault { IfOk result (λ p. self.new.fault ≡ option_or self.old.fault
            (found_in_scope (value_fault level (levels - 1)) p.wrapper p.text.now)) }
    {
        let key = skip_key(self.rest)?;
        let wrapper = read_name(self.alloc, key.quoted, &mut self.scratch)?.wrapper;
        let text = key.rest;
        let part = Part { wrapper, text };
        self.rest = text;
        let depth_left = if part.is_scope() {
            Some(levels.saturating_sub(1))
        } else {
            None
        };
        self.value(level, depth_left)?;
        Ok(part)
    }

    /// The fault of an object of two members, of which a scope was searched for faults.
    fn pair_fault(
        &mut self,
        text: &'a [u8],
        levels: usize,
        first: Part<'a>,
        second: Part<'a>,
    ) -> Result<Option<TreeFault>, AllocError>
        ensures same { self.new.rest.now ≡ self.old.rest.now }
        ensures fault { (fault : ℕ → Finds) → self.old.fault ≡ option_or
            (found_in_scope (fault (levels - 1)) first.entry.wrapper first.entry.text.now)
            (found_in_scope (fault (levels - 1)) second.entry.wrapper second.entry.text.now) →
            IfOk result (λ f.
            f ≡ code_fault fault levels text.now ((first.entry.wrapper, first.entry.text.now)
            ∷ (second.entry.wrapper, second.entry.text.now) ∷ [])) }
    {
        if first.is_code() {
            if second.is_scope() {
                self.scope_fault(text, levels, first.text, second.text)
            } else {
                Ok(bad_wrapper(text))
            }
        } else if first.is_scope() {
            if second.is_code() {
                self.scope_fault(text, levels, second.text, first.text)
            } else {
                Ok(bad_wrapper(text))
            }
        } else {
            Ok(bad_wrapper(text))
        }
    }

    /// The fault of code with scope, whose scope was searched for its first fault: first the depth of the scope, which takes
    /// two levels, then its fault, and last whether it is a document.
    fn scope_fault(
        &mut self,
        text: &'a [u8],
        levels: usize,
        code: &'a [u8],
        scope: &'a [u8],
    ) -> Result<Option<TreeFault>, AllocError>
        ensures same { self.new.rest.now ≡ self.old.rest.now }
        ensures fault { (fault : ℕ → Finds) → self.old.fault ≡ fault (levels - 1) scope.now
            → IfOk result (λ f. f ≡ scope_fault fault levels text.now code.now scope.now) }
    {
        if !is_string(code) {
            return Ok(bad_wrapper(text));
        }
        if levels < 2 {
            return Ok(Some(TreeFault::at(text, TreeFaultKind::TooDeep)));
        }
        let end = if self.opens_document(scope)? {
            None
        } else {
            bad_wrapper(text)
        };
        Ok(self.fault.or(end))
    }

    /// How many levels remain inside the document or array that the text begins with.
    fn deeper(&mut self, text: &[u8], depth_left: Option<usize>) -> Option<usize>
        ensures same { self.new.rest.now ≡ self.old.rest.now }
        ensures fault { self.new.fault
            ≡ option_or self.old.fault (depth_fault depth_left text.now) }
        ensures less { result ≡ levels_inside depth_left }
    {
        if depth_left == Some(0) {
            self.note(text, Some(TreeFaultKind::TooDeep));
        }
        depth_left?.checked_sub(1)
    }

    /// Notes the fault of a name, if faults are searched.
    fn check_name(&mut self, key: &Key<'_>, depth_left: Option<usize>) -> Result<(), AllocError>
        ensures same { self.new.rest.now ≡ self.old.rest.now }
        ensures fault { OnOk result (self.new.fault ≡ found self.old.fault depth_left
            (λ r. zero_fault key.now.quoted.now key.now.from.now)) }
        ensures memory { depth_left ≡ None → IsOk result }
    {
        if depth_left.is_some() && read_name(self.alloc, key.quoted, &mut self.scratch)?.has_zero {
            self.note(key.from, Some(TreeFaultKind::NulInName));
        }
        Ok(())
    }

    /// Notes a fault at the first byte of a text, unless there is an earlier one.
    fn note(&mut self, text: &[u8], kind: Option<TreeFaultKind>)
        ensures same { self.new.rest.now ≡ self.old.rest.now }
        ensures fault { self.new.fault
            ≡ option_or self.old.fault (option_and_then (fault_at text.now) kind) }
    {
        if let Some(kind) = kind {
            self.fault = self.fault.or(Some(TreeFault::at(text, kind)));
        }
    }

    /// Skips the closing bracket if it is next, and returns whether it was.
    fn closes(&mut self, bracket: u8) -> bool
        ensures reports { result ≡ begins (λ b. b == bracket) (beyond_white self.old.rest.now) }
        ensures beyond { self.new.rest.now
            ≡ (if result then drop 1 (beyond_white self.old.rest.now) else self.old.rest.now) }
        ensures shorter { length self.new.rest.now ≤ length self.old.rest.now }
        ensures same { self.new.fault ≡ self.old.fault }
    {
        let here = skip_white(self.rest);
        if !begins(here, bracket) {
            return false;
        }
        self.rest = skip_byte(here);
        true
    }

    /// Skips the comma after a part, or the closing bracket, and returns whether another part comes.
    #[tactic(auto, unfolding(crate::specs::JsonSyntax::beyond_next))]
    fn goes_on(&mut self, bracket: u8) -> Result<bool, Stop>
        ensures beyond { IsAnswer (λ more. (more, self.new.rest.now)) result
            (beyond_next (λ b. b == bracket) self.old.rest.now) }
        ensures shorter { MatchResult result
            (λ more. length self.new.rest.now ≤ length self.old.rest.now)
            (λ stop. stop.remaining ≤ length self.old.rest.now) }
        ensures same { self.new.fault ≡ self.old.fault }
    {
        if self.closes(bracket) {
            return Ok(false);
        }
        self.rest = skip_word(skip_white(self.rest), b",")?;
        Ok(true)
    }
}

//! The fields that a text requests.

ghost use Rattle.std.specs.Prelude.{◌≡◌, ◌==◌, IfOk, IfSome, MatchOption, None, Ok, Some, map, option_map};
ghost use Rattle.std.specs.{List.list_any, List.slice_split};
ghost use Rattle.bd_path.specs.Path.{component_names, path_of};
ghost use Rattle.bd_path.specs.PathNames.{names_of, path_text};
ghost use Rattle.bd_path.specs.declared.path.PathFault.{PathFault as path_fault};
ghost use Rattle.bd_wide_dump.specs.Fields.{clash, columns_named, fields_named, id_path, leads, meet, paths_in, requested, with_id};

use bd_path::{Component, Path, PathFault};
use bd_value::NoMemory;
use std::alloc::{AllocError, Global};

/// The paths to the fields that a text requests, with commas between them, and `_id`, unless it is left out. None if one of them
/// is no path, if one leads to another, or if one leads to `_id` and it is left out. It fails only if memory runs out.
pub fn read_fields(alloc: Global, text: &str, no_id: bool) -> Result<Option<Vec<Path>>, NoMemory>
    ensures { IfOk result (λ paths.
        option_map (λ v. requested v.items) paths ≡ fields_named no_id text.now) }
{
    let texts = split_text(alloc, text)?;
    match read_paths(alloc, &texts)? {
        Some(paths) => add_id(alloc, no_id, paths),
        None => Ok(None),
    }
}

/// The paths to the columns that a text requests, with commas between them, in its order. None if one of them is no path, or if one
/// leads to another. It fails only if memory runs out.
pub fn read_columns(alloc: Global, text: &str) -> Result<Option<Vec<Path>>, NoMemory>
    ensures paths { IfOk result (λ columns.
        option_map (λ v. requested v.items) columns ≡ columns_named text.now) }
    ensures texts { IfOk result (λ columns. IfSome columns (λ v.
        map path_text v.items ≡ slice_split (λ c. c == 44) text.now)) }
{
    let texts = split_text(alloc, text)?;
    let Some(paths) = read_paths(alloc, &texts)? else {
        return Ok(None);
    };
    if clash(&paths) {
        return Ok(None);
    }
    Ok(Some(paths))
}

/// The texts between the commas of a text. It fails only if memory runs out.
fn split_text(alloc: Global, text: &str) -> Result<Vec<&str>, NoMemory>
    ensures { IfOk result (λ v.
        map (λ part. part.now) v.items ≡ slice_split (λ c. c == 44) text.now) }
{
    text.split(',').collect(alloc)
}

/// The paths in these texts; None if one of the texts is no path.
fn read_paths(alloc: Global, texts: &[&str]) -> Result<Option<Vec<Path>>, NoMemory>
    ensures paths { IfOk result (λ paths. option_map (λ v.
        requested v.items) paths ≡ paths_in (map (λ text. text.now) texts.now)) }
    ensures texts { IfOk result (λ paths. IfSome paths (λ v.
        map path_text v.items ≡ map (λ text. text.now) texts.now)) }
{
    let mut paths = Vec::new(alloc);
    let mut rest = texts;
    while let [text, others @ ..] = rest {
        let Some(path) = read_path(alloc, text)? else {
            return Ok(None);
        };
        paths.push(path)?;
        rest = others;
    }
    Ok(Some(paths))
}

/// The path in a text, if it is one.
fn read_path(alloc: Global, text: &str) -> Result<Option<Path>, NoMemory>
    ensures path { IfOk result (λ path. MatchOption path
        ((fault : path_fault) × (path_of text.now ≡ Err fault)) (λ p.
        path_of text.now ≡ Ok (names_of p))) }
    ensures text { IfOk result (λ path. IfSome path (λ p. path_text p ≡ text.now)) }
{
    match Path::parse(alloc, text) {
        Ok(path) => Ok(Some(path)),
        Err(PathFault::NoMemory) => Err(AllocError),
        Err(_) => Ok(None),
    }
}

/// These paths and `_id`, unless it is among them or left out; None if they are refused.
fn add_id(alloc: Global, no_id: bool, paths: Vec<Path>) -> Result<Option<Vec<Path>>, NoMemory>
    ensures { IfOk result (λ all.
        option_map (λ v. requested v.items) all ≡ with_id no_id (requested paths.items)) }
{
    let id = read_id(alloc)?;
    let named = leads_to_some(&id, &paths);
    if clash(&paths) || no_id && named {
        return Ok(None);
    }
    if no_id || named {
        return Ok(Some(paths));
    }
    let mut all = paths;
    all.push(id)?;
    Ok(Some(all))
}

/// The path of `_id`.
fn read_id(alloc: Global) -> Result<Path, NoMemory>
    ensures { IfOk result (λ path. names_of path ≡ id_path) }
{
    match Path::parse(alloc, "_id") {
        Ok(path) => Ok(path),
        Err(_) => Err(AllocError),
    }
}

/// Whether a path leads to one of these paths, or is one.
fn leads_to_some(path: &Path, others: &[Path]) -> bool
    ensures { result ≡ list_any (leads (names_of path.now)) (requested others.now) }
{
    let mut rest = others;
    while let [other, more @ ..] = rest {
        if leads(path.components(), other.components()) {
            return true;
        }
        rest = more;
    }
    false
}

/// Whether one of these paths leads to another of them.
fn clash(paths: &[Path]) -> bool
    ensures { result ≡ clash (requested paths.now) }
{
    let mut rest = paths;
    while let [path, others @ ..] = rest {
        if meets_some(path, others) {
            return true;
        }
        rest = others;
    }
    false
}

/// Whether a path leads to one of these paths, or one of them to it.
fn meets_some(path: &Path, others: &[Path]) -> bool
    ensures { result ≡ list_any (meet (names_of path.now)) (requested others.now) }
{
    let mut rest = others;
    while let [other, more @ ..] = rest {
        if meet(path.components(), other.components()) {
            return true;
        }
        rest = more;
    }
    false
}

/// Whether one of two paths leads to the other.
fn meet(one: &[Component], other: &[Component]) -> bool
    ensures { result ≡ meet (component_names one.now) (component_names other.now) }
{
    leads(one, other) || leads(other, one)
}

/// Whether a path of these names leads to another, or is it.
fn leads(names: &[Component], others: &[Component]) -> bool
    ensures { result ≡ leads (component_names names.now) (component_names others.now) }
{
    let Some((name, names)) = names.split_first() else {
        return true;
    };
    let Some((other, others)) = others.split_first() else {
        return false;
    };
    name.name.as_str() == other.name.as_str() && leads(names, others)
}

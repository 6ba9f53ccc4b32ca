//! Paths, texts that are not paths, and the keys of a document as its nodes.
use bd_extjson::read_doc;
use bd_path::{Dir, Path, PathFault, compare_keys, key_nodes, sort_key_node};
use bd_value::Tree;
use std::test::Fail;

/// Whether a path is `a.7`, by each of its calls.
fn is_a_7(path: &Path) -> bool {
    let [first, second] = path.components() else {
        return false;
    };
    if path.len() != 2 || path.component(0) != "a" || path.component(1) != "7" {
        return false;
    }
    let are_names = first.name.as_str() == "a" && second.name.as_str() == "7";
    are_names && first.index.is_none() && second.index == Some(7) && path.as_str() == "a.7"
}

#[test]
fn splits_and_copies_a_path(rt: HostRuntime) -> Result<(), Fail> {
    let path = Path::parse(rt.alloc(), "a.7")?;
    assert!(rt; is_a_7(&path));
    let copy = path.try_copy(rt.alloc())?;
    assert!(rt; is_a_7(&copy));
    Ok(())
}

/// No text is refused here because memory runs out.
#[test]
fn reports_why_a_text_is_no_path(rt: HostRuntime) -> Result<(), Fail> {
    let alloc = rt.alloc();
    let fault = match Path::parse(alloc, "a..b") {
        Ok(_) => return Err("no path was wanted".into()),
        Err(fault) => fault,
    };
    assert!(rt; format!(in alloc; "{fault}")?.as_str() == "empty component");
    assert!(rt; PathFault::NoMemory.words() == "no memory");
    Ok(())
}

/// The keys of the document are 1, a null and 2.
#[test]
fn gives_keys_as_nodes(rt: HostRuntime) -> Result<(), Fail> {
    let alloc = rt.alloc();
    let document = read_doc(alloc, br#"{"a":[{"b":1},{},{"b":[2,1]}]}"#)?;
    let document = Tree::Doc(&document);
    let path = Path::parse(alloc, "a.b")?;
    let keys = key_nodes(alloc, document, &path)?;
    assert!(rt; keys.len() == 3);
    let least = sort_key_node(document, &path, Dir::Up);
    let greatest = sort_key_node(document, &path, Dir::Down);
    assert!(rt; compare_keys(least, keys[1]).is_eq() && compare_keys(greatest, keys[2]).is_eq());
    Ok(())
}

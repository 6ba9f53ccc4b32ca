//! Command lines whose results no run prints: the path of an index, and a size above a limit.
use bd_cli_args::parse_words;
use std::test::Fail;

/// The arguments, each after a comma, and after an arrow the result, as it is printed for debugging.
const ANSWERS: &str =
    r#",find,F,--query,q,--sort,s,--skip,1,--limit,2,--batch,3,--after,t -> Ok(Find { file: "F", options: FindOptions { query: Some("q"), sort: Some("s"), skip: 1, limit: 2, batch: Some(3), index: None, after: Some("t") } })
,find,F,--index,p -> Ok(Find { file: "F", options: FindOptions { query: None, sort: None, skip: 0, limit: 0, batch: None, index: Some("p"), after: None } })
,find,--index=a.b,F -> Ok(Find { file: "F", options: FindOptions { query: None, sort: None, skip: 0, limit: 0, batch: None, index: Some("a.b"), after: None } })
,find,F,--index,- -> Ok(Find { file: "F", options: FindOptions { query: None, sort: None, skip: 0, limit: 0, batch: None, index: Some("-"), after: None } })
,find,F,--index=-p -> Ok(Find { file: "F", options: FindOptions { query: None, sort: None, skip: 0, limit: 0, batch: None, index: Some("-p"), after: None } })
,find,F,--query,q,--sort,s,--skip,1,--limit,2,--batch,3,--index,p,--after,t -> Ok(Find { file: "F", options: FindOptions { query: Some("q"), sort: Some("s"), skip: 1, limit: 2, batch: Some(3), index: Some("p"), after: Some("t") } })
,find,--after,t,--index,p,--batch,3,--limit,2,F,--skip,1,--sort,s,--query,q -> Ok(Find { file: "F", options: FindOptions { query: Some("q"), sort: Some("s"), skip: 1, limit: 2, batch: Some(3), index: Some("p"), after: Some("t") } })"#;

#[test]
fn answers(rt: HostRuntime) -> Result<(), Fail> {
    let alloc = rt.alloc();
    for row in ANSWERS.lines() {
        let (line, wanted) = row.split_once(" -> ").unwrap_or(("", ""));
        let mut words = Vec::new(alloc);
        for word in line.split(',').skip(1) {
            words.push(String::from_str(alloc, word)?)?;
        }
        let reported = format!(in alloc; "{:?}", parse_words(alloc, &words))?;
        assert!(rt; reported.as_str() == wanted, "{line}: {reported}");
    }
    Ok(())
}

use console::fault::Fault;
use console::options::Options;
use std::alloc::Global;
use std::test::Fail;

// The words as the command line gives them.
fn words(heap: Global, list: &[&str]) -> Result<Vec<String>, Fail> {
    let mut words = Vec::new(heap);
    for word in list {
        words.push(String::from_str(heap, word)?)?;
    }
    Ok(words)
}

#[test]
fn reads(rt: HostRuntime) -> Result<(), Fail> {
    let heap = rt.alloc();
    let given = words(heap, &["--solo", "3", "--log", "out", "rig", "a", "b"])?;
    match Options::read(heap, given) {
        Err(_) => Err(Fail::new("refused")),
        Ok(o) => {
            assert!(rt; o.solo == Some(3));
            assert!(rt; o.log.is_some());
            assert!(rt; o.setup.as_str() == "rig");
            assert_eq!(rt; o.shows.len(), 2);
            Ok(())
        }
    }
}

#[test]
fn refuses(rt: HostRuntime) -> Result<(), Fail> {
    let heap = rt.alloc();
    let few = words(heap, &["rig"])?;
    assert!(rt; matches!(Options::read(heap, few), Err(Fault::Usage)));
    let twice = words(heap, &["--log", "a", "--log", "b", "rig", "show"])?;
    assert!(rt; matches!(Options::read(heap, twice), Err(Fault::Usage)));
    let eight = words(heap, &["--solo", "8", "rig", "show"])?;
    assert!(rt; matches!(Options::read(heap, eight), Err(Fault::Part)));
    Ok(())
}

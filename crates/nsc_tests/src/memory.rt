// Words in memory of one owner.
use nsc_arena::{VecWords, Words};
use std::test::Fail;

// They are 0 at first, and each has what was set there last.
#[test]
fn words_are_set_one_by_one(rt: HostRuntime) -> Result<(), Fail> {
    let mut words = VecWords::new(rt.alloc(), 3)?;
    let first = [words.get(0), words.get(1), words.get(2)];
    words.set(1, u64::MAX);
    words.set(2, 5);
    words.set(1, 7);
    assert_eq!(rt; (words.len(), first), (3, [0, 0, 0]));
    assert_eq!(rt; [words.get(0), words.get(1), words.get(2)], [0, 7, 5]);
    Ok(())
}

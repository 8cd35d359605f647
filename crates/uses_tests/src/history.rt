//! Steps, and steps undone.
use std::test::Fail;
use uses::history::History;

#[test]
fn an_undo_gives_the_state_before_back(rt: HostRuntime) -> Result<(), Fail> {
    let mut history = History::<_, 2>::new(rt.alloc(), "a")?;
    history.step("ab");
    assert!(rt; history.undo());
    assert!(rt; *history.present() == "a");
    assert!(rt; !history.undo());
    assert!(rt; history.redo());
    assert!(rt; *history.present() == "ab");
    assert!(rt; !history.redo());
    Ok(())
}

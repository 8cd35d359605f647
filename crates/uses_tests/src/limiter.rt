//! At most three requests in ten seconds.
use std::test::Fail;
use uses::limiter::Limiter;

#[test]
fn a_fourth_request_waits_for_the_first_to_grow_old(rt: HostRuntime) -> Result<(), Fail> {
    let mut limiter = Limiter::<3>::new(rt.alloc(), 10)?;
    let rows = [
        (0, true),
        (1, true),
        (2, true),
        (3, false),
        (9, false),
        (10, true),
        (10, false),
        (30, true),
    ];
    for (now, is_admitted) in rows {
        assert!(rt; limiter.admit(now) == is_admitted, "{now}");
    }
    let mut none = Limiter::<0>::new(rt.alloc(), 10)?;
    assert!(rt; !none.admit(0));
    Ok(())
}

#[test]
fn times_in_turn_are_admitted_alike(rt: HostRuntime) -> Result<(), Fail> {
    let mut limiter = Limiter::<2>::new(rt.alloc(), 10)?;
    assert!(rt; limiter.admit_in_turn(0));
    assert!(rt; limiter.admit_in_turn(2));
    assert!(rt; !limiter.admit_in_turn(9));
    assert!(rt; limiter.admit_in_turn(10));
    assert!(rt; !limiter.admit_in_turn(11));
    assert!(rt; limiter.admit_in_turn(30));
    Ok(())
}

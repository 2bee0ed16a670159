use super::*;
use clause_store::ClauseId;
use std::test::Fail;
use tel_base::Lit;

#[test]
fn levels_up_and_back(rt: HostRuntime) -> Result<(), Fail> {
    let mut trail = Trail::new(rt.alloc());
    trail.grow(4)?;
    let reason = ClauseId { place: 7 };
    trail.imply(Lit::of(0), reason);
    trail.open_level();
    trail.imply(Lit::of(1), reason);
    trail.decide(Lit::of(2).negated());
    assert_eq!(rt; trail.level(), 2);
    assert_eq!(rt;
        trail.lits(),
        [Lit::of(0), Lit::of(1), Lit::of(2).negated()].as_slice()
    );
    assert_eq!(rt; trail.value(Lit::of(2)), Some(false));
    assert_eq!(rt; trail.level_of(2), Some(2));
    assert_eq!(rt; trail.reason(2), None);
    assert_eq!(rt; trail.reason(1), Some(reason));
    assert_eq!(rt; trail.decision(1), None);
    assert_eq!(rt; trail.decision(2), Some(Lit::of(2).negated()));
    trail.back_to(0);
    assert_eq!(rt; trail.level(), 0);
    assert_eq!(rt; trail.value(Lit::of(1)), None);
    assert_eq!(rt; trail.value(Lit::of(0).negated()), Some(false));
    Ok(())
}

use super::*;
use std::test::Fail;
use tel_base::Lit;

#[test]
fn clauses_with_their_kinds(rt: HostRuntime) -> Result<(), Fail> {
    let mut store = Store::new(rt.alloc());
    store.reserve_vars(3)?;
    let first = store.add(ClauseKind::Module, &[Lit::of(2), Lit::of(0).negated()])?;
    store.reserve(1, 1)?;
    let second = store.add_reserved(ClauseKind::Learnt, &[Lit::of(1)]);
    assert_eq!(rt; store.len(), 2);
    assert_eq!(rt;
        store.clause(first),
        [Lit::of(2), Lit::of(0).negated()].as_slice()
    );
    assert_eq!(rt; store.kind(first), ClauseKind::Module);
    assert_eq!(rt; store.clause(second), [Lit::of(1)].as_slice());
    assert_eq!(rt; store.kind(second), ClauseKind::Learnt);
    Ok(())
}

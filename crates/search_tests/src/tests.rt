ghost use Rattle.std.specs.Prelude.{◌≡◌, ◌<◌};

use crate::session::Session;
use clause_store::ClauseId;
use std::test::Fail;
use tel_base::{Lit, Memory};

/// A clause of one literal, one that is true, one of two open literals, and one that gives a literal.
fn hold_cases(session: &mut Session) -> Result<(), Memory>
    requires { session.old ≡ 4 }
    ensures { session.new ≡ 4 }
{
    let _ = session.hold(&[Lit::of(0)])?;
    let _ = session.hold(&[Lit::of(0), Lit::of(2)])?;
    let _ = session.hold(&[Lit::of(2), Lit::of(3)])?;
    let _ = session.hold(&[Lit::of(0).negated(), Lit::of(1)])?;
    Ok(())
}

#[test]
fn each_case_of_the_unit_rule(rt: HostRuntime) -> Result<(), Fail> {
    let mut session = Session::new(rt.alloc(), 4)?;
    hold_cases(&mut session)?;
    assert!(rt; session.propagate().is_none());
    assert_eq!(rt; session.value(Lit::of(0)), Some(true));
    assert_eq!(rt; session.value(Lit::of(1)), Some(true));
    assert_eq!(rt; session.value(Lit::of(2)), None);
    assert_eq!(rt; session.value(Lit::of(3)), None);
    assert_eq!(rt; session.reason(1), Some(ClauseId { place: 3 }));
    Ok(())
}

#[test]
fn a_conflict_at_level_0(rt: HostRuntime) -> Result<(), Fail> {
    let mut session = Session::new(rt.alloc(), 2)?;
    assert!(rt; session.hold(&[Lit::of(0)])?);
    assert!(rt; session.hold(&[Lit::of(0).negated()])?);
    assert_eq!(rt; session.propagate(), Some(ClauseId { place: 1 }));
    Ok(())
}

/// Three implications, each of which waits for a decision more.
fn hold_chain(session: &mut Session) -> Result<(), Memory>
    requires { session.old ≡ 6 }
    ensures { session.new ≡ 6 }
{
    let _ = session.hold(&[Lit::of(3).negated(), Lit::of(4).negated(), Lit::of(5)])?;
    let _ = session.hold(&[Lit::of(1).negated(), Lit::of(2).negated(), Lit::of(3)])?;
    let _ = session.hold(&[Lit::of(0).negated(), Lit::of(1)])?;
    Ok(())
}

/// Decides a literal and propagates: whether there was no conflict.
fn go_on(session: &mut Session, var: u32) -> bool
    requires { var < session.old }
    ensures { session.new ≡ session.old }
{
    session.decide(Lit::of(var)) && session.propagate().is_none()
}

#[test]
fn a_chain_through_three_levels(rt: HostRuntime) -> Result<(), Fail> {
    let mut session = Session::new(rt.alloc(), 6)?;
    hold_chain(&mut session)?;
    assert!(rt; session.propagate().is_none());
    assert!(rt; go_on(&mut session, 0));
    assert!(rt; go_on(&mut session, 2));
    assert!(rt; go_on(&mut session, 4));
    assert_eq!(rt; session.level_of(1), Some(1));
    assert_eq!(rt; session.level_of(3), Some(2));
    assert_eq!(rt; session.level_of(5), Some(3));
    Ok(())
}

/// Of the module of `{a}. {b}. :- a, b. :- a, not b. :- not a, b. :- not a, not b.` at length 1, with a 0, b 1, the bodies 2 to 7 and the end 8:
/// the bodies of the choices and of the first constraint.
fn hold_choices(session: &mut Session) -> Result<(), Memory>
    requires { session.old ≡ 9 }
    ensures { session.new ≡ 9 }
{
    let _ = session.hold(&[Lit::of(2)])?;
    let _ = session.hold(&[Lit::of(3)])?;
    let _ = session.hold(&[Lit::of(0), Lit::of(4).negated()])?;
    let _ = session.hold(&[Lit::of(1), Lit::of(4).negated()])?;
    let _ = session.hold(&[Lit::of(0).negated(), Lit::of(1).negated(), Lit::of(4)])?;
    let _ = session.hold(&[Lit::of(4).negated()])?;
    Ok(())
}

/// The body of the second constraint.
fn hold_second(session: &mut Session) -> Result<(), Memory>
    requires { session.old ≡ 9 }
    ensures { session.new ≡ 9 }
{
    let _ = session.hold(&[Lit::of(0), Lit::of(5).negated()])?;
    let _ = session.hold(&[Lit::of(1).negated(), Lit::of(5).negated()])?;
    let _ = session.hold(&[Lit::of(0).negated(), Lit::of(1), Lit::of(5)])?;
    let _ = session.hold(&[Lit::of(5).negated()])?;
    Ok(())
}

/// The body of the third constraint.
fn hold_third(session: &mut Session) -> Result<(), Memory>
    requires { session.old ≡ 9 }
    ensures { session.new ≡ 9 }
{
    let _ = session.hold(&[Lit::of(0).negated(), Lit::of(6).negated()])?;
    let _ = session.hold(&[Lit::of(1), Lit::of(6).negated()])?;
    let _ = session.hold(&[Lit::of(0), Lit::of(1).negated(), Lit::of(6)])?;
    let _ = session.hold(&[Lit::of(6).negated()])?;
    Ok(())
}

/// The body of the fourth constraint, and the supports of the atoms.
fn hold_fourth(session: &mut Session) -> Result<(), Memory>
    requires { session.old ≡ 9 }
    ensures { session.new ≡ 9 }
{
    let _ = session.hold(&[Lit::of(0).negated(), Lit::of(7).negated()])?;
    let _ = session.hold(&[Lit::of(1).negated(), Lit::of(7).negated()])?;
    let _ = session.hold(&[Lit::of(0), Lit::of(1), Lit::of(7)])?;
    let _ = session.hold(&[Lit::of(7).negated()])?;
    let _ = session.hold(&[Lit::of(0).negated(), Lit::of(2)])?;
    let _ = session.hold(&[Lit::of(1).negated(), Lit::of(3)])?;
    Ok(())
}

#[test]
fn four_constraints_teach_one_literal(rt: HostRuntime) -> Result<(), Fail> {
    let mut session = Session::new(rt.alloc(), 9)?;
    hold_choices(&mut session)?;
    hold_second(&mut session)?;
    hold_third(&mut session)?;
    hold_fourth(&mut session)?;
    assert!(rt; session.propagate().is_none());
    assert!(rt; go_on(&mut session, 8));
    assert!(rt; session.decide(Lit::of(0).negated()));
    assert!(rt; session.propagate().is_some());
    match session.learn(rt.alloc())? {
        Some((lits, level)) => {
            assert_eq!(rt; lits.as_slice(), [Lit::of(0)].as_slice());
            assert_eq!(rt; level, 0);
        }
        None => assert!(rt; false),
    }
    Ok(())
}

/// With 0 and 1 decided before 2: 3 follows from 2, and with the others 4 and 5, which exclude each other.
fn hold_uip(session: &mut Session) -> Result<(), Memory>
    requires { session.old ≡ 6 }
    ensures { session.new ≡ 6 }
{
    let _ = session.hold(&[Lit::of(2).negated(), Lit::of(3)])?;
    let _ = session.hold(&[Lit::of(3).negated(), Lit::of(0).negated(), Lit::of(4)])?;
    let _ = session.hold(&[Lit::of(3).negated(), Lit::of(1).negated(), Lit::of(5)])?;
    let _ = session.hold(&[Lit::of(4).negated(), Lit::of(5).negated()])?;
    Ok(())
}

#[test]
fn a_first_uip_that_is_no_decision(rt: HostRuntime) -> Result<(), Fail> {
    let mut session = Session::new(rt.alloc(), 6)?;
    hold_uip(&mut session)?;
    assert!(rt; session.propagate().is_none());
    assert!(rt; go_on(&mut session, 0));
    assert!(rt; go_on(&mut session, 1));
    assert!(rt; !go_on(&mut session, 2));
    match session.learn(rt.alloc())? {
        Some((lits, level)) => {
            assert_eq!(rt; lits.len(), 3);
            assert_eq!(rt; lits[0], Lit::of(3).negated());
            assert_eq!(rt; level, 2);
        }
        None => assert!(rt; false),
    }
    Ok(())
}

//! Whether a formula of a program holds in a trace.

ghost use Rattle.std.specs.Prelude.{◌≡◌, ◌<◌, length, IsTrue};
ghost use Rattle.tel_rule.specs.Nodes.{kid_in_range};
ghost use Rattle.tel_semantics.specs.Traces.{test_of};
ghost use Rattle.tel_semantics.specs.NodeFormula.{kid_formula};
ghost use Rattle.tel_semantics.specs.Satisfaction.{sat};

use crate::walking::{HtTrace, Operand, World};
use tel_rule::{Kid, Template, Trace};

/// Whether what a child means, an atom or a node of the program, holds at the instant `k` of the
/// pair `(T, T)`, with the trace as `T`. It takes no memory.
pub fn holds(template: &Template, trace: &Trace, k: u32, kid: &Kid) -> bool
    requires within { k < length trace.now }
    requires in_range { IsTrue (kid_in_range (length template.now.atoms) (length template.now.nodes) kid.now) }
    ensures { result ≡ sat (kid_formula template.now.nodes kid.now) (length trace.now) (test_of trace.now) (test_of trace.now) k }
{
    let states = trace.states.as_slice();
    let pair = HtTrace {
        length: states.len(),
        here: states,
        there: states,
        world: World::There,
    };
    pair.holds(template, Operand::Child(*kid), k as usize)
}

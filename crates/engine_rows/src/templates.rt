//! Programs as templates.

ghost use Rattle.std.specs.Prelude.{IfOk};
ghost use Rattle.tel_engine.specs.Engines.{IsSmall};

use anyhow::{Result, ensure};
use std::alloc::Global;
use tel_rule::Template;

/// The greatest length of an engine here.
pub const GREATEST: u32 = 4;

/// More atoms, nodes or instances than a program here has.
const MANY: usize = 1000;

/// The template of a text, which is small.
pub fn template_of(alloc: Global, text: &str) -> Result<Template>
    ensures { IfOk result (λ template. IsSmall template GREATEST) }
{
    let template = small_templates::template_of(alloc, text, GREATEST)?;
    let atoms = template.atoms.len();
    let nodes = template.nodes.len();
    let instances = template.instances.len();
    ensure!(
        atoms < MANY && nodes < MANY && instances < MANY,
        "a program is too large"
    );
    Ok(template)
}

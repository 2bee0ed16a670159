//! Programs as templates.

ghost use Rattle.std.specs.Prelude.{◌≡◌, IfOk};
ghost use Rattle.formula_unfold.specs.Nodes.{counts_of};

use anyhow::{Result, bail};
use atom_space::AtomSpace;
use std::alloc::Global;
use tel_rule::Template;

/// The greatest state of a search here.
pub const GREATEST: u32 = 4;

/// More atoms, nodes or instances than a program here has.
const MANY: usize = 1000;

/// The template of a text.
pub fn template_of(alloc: Global, text: &str) -> Result<Template> {
    let template = small_templates::template_of(alloc, text, GREATEST)?;
    Ok(template)
}

/// The variables of a template, up to the greatest state.
pub fn space_of(template: &Template) -> Result<AtomSpace>
    ensures counts { IfOk result (λ space. space.counts ≡ counts_of template.now) }
    ensures greatest { IfOk result (λ space. space.greatest ≡ GREATEST) }
{
    let atoms = template.atoms.len();
    let nodes = template.nodes.len();
    let bodies = template.instances.len();
    if atoms < MANY && nodes < MANY && bodies < MANY {
        Ok(AtomSpace {
            atoms: atoms as u32,
            nodes: nodes as u32,
            bodies: bodies as u32,
            greatest: GREATEST,
        })
    } else {
        bail!("a program is too large")
    }
}

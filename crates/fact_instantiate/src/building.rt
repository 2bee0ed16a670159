//! The instances of a program and their nodes.
ghost use Rattle.std.specs.Prelude.{◌≡◌, ◌++◌, ◌<◌, ◌^◌, [], map, length, IfOk, OnOk};
ghost use Rattle.instance_build.specs.Instances.{in_row};
ghost use Rattle.fact_instantiate.specs.Building.{built_rule, fact_instance, built_kind, built_statements};

use crate::numbering::{BoundNumbers, fact_number};
use atom_table::AtomNumbers;
use instance_build::build_rule;
use sqlite_items::Items;
use std::alloc::Global;
use tel_base::Memory;
use tel_rule::{Fact, GroundHead, Head, Instance, Kind, Literal, Node, Part, Statement};
use tel_term::Value;

/// Instances with their nodes.
#[derive(Drop)]
pub struct Built {
    pub nodes: Items<Node>,
    pub instances: Items<Instance>,
}

impl Built {
    /// Adds the instances of a rule, one for each of these bindings. The rule is the statement with this number.
    fn push_rule(
        &mut self,
        alloc: Global,
        numbers: &AtomNumbers,
        number: u32,
        part: Part,
        head: &Head,
        body: &[Literal],
        live: &[Items<Value>],
    ) -> Result<(), Memory>
        ensures instances { OnOk result (self.new.instances ≡ self.old.instances ++ (in_row (map (built_rule numbers.now number part head.now body.now) live.now) (length self.old.nodes)).0) }
        ensures nodes { OnOk result (self.new.nodes ≡ self.old.nodes ++ (in_row (map (built_rule numbers.now number part head.now body.now) live.now) (length self.old.nodes)).1) }
    {
        for binding in live {
            let bound = BoundNumbers {
                numbers,
                binding: binding.as_slice(),
            };
            let instance = build_rule(alloc, &bound, number, part, head, body, &mut self.nodes)?;
            self.instances.push(instance)?;
        }
        Ok(())
    }

    /// Adds the instances of a fact, one for each of these rows. The fact is the statement with this number.
    fn push_fact(
        &mut self,
        alloc: Global,
        numbers: &AtomNumbers,
        number: u32,
        part: Part,
        fact: &Fact,
        live: &[Items<Value>],
    ) -> Result<(), Memory>
        ensures instances { OnOk result (self.new.instances ≡ self.old.instances ++ map (fact_instance numbers.now number part fact.now) live.now) }
        ensures nodes { OnOk result (self.new.nodes ≡ self.old.nodes) }
    {
        for row in live {
            let atom = fact_number(numbers, fact, row.as_slice())?;
            self.instances.push(Instance {
                statement: number,
                part,
                head: GroundHead::Normal {
                    atom,
                    after: fact.after > 0,
                },
                body: Items::new(alloc),
            })?;
        }
        Ok(())
    }

    /// Adds the instances of a statement with this number.
    fn push_statement(
        &mut self,
        alloc: Global,
        numbers: &AtomNumbers,
        number: u32,
        statement: &Statement,
        live: &[Items<Value>],
    ) -> Result<(), Memory>
        ensures instances { OnOk result (self.new.instances ≡ self.old.instances ++ (in_row (built_kind numbers.now number statement.now.part statement.now.kind live.now) (length self.old.nodes)).0) }
        ensures nodes { OnOk result (self.new.nodes ≡ self.old.nodes ++ (in_row (built_kind numbers.now number statement.now.part statement.now.kind live.now) (length self.old.nodes)).1) }
    {
        match &statement.kind {
            Kind::Rule(head, body) => self.push_rule(
                alloc,
                numbers,
                number,
                statement.part,
                head,
                body.as_slice(),
                live,
            ),
            Kind::Facts(fact) => {
                self.push_fact(alloc, numbers, number, statement.part, fact, live)?;
                Ok(())
            }
            Kind::Const(..) | Kind::Show(_) => Ok(()),
        }
    }

    /// Adds the instances of these statements, which are numbered from 0.
    fn push_all(
        &mut self,
        alloc: Global,
        numbers: &AtomNumbers,
        statements: &[Statement],
        live: &[Items<Items<Value>>],
    ) -> Result<(), Memory>
        requires few { length statements.now < 2 ^ 32 }
        requires each { length live.now ≡ length statements.now }
        ensures instances { OnOk result (self.new.instances ≡ self.old.instances ++ (in_row (built_statements numbers.now 0 statements.now live.now) (length self.old.nodes)).0) }
        ensures nodes { OnOk result (self.new.nodes ≡ self.old.nodes ++ (in_row (built_statements numbers.now 0 statements.now live.now) (length self.old.nodes)).1) }
    {
        for (number, statement) in statements.iter().enumerate() {
            self.push_statement(
                alloc,
                numbers,
                number as u32,
                statement,
                live[number].as_slice(),
            )?;
        }
        Ok(())
    }
}

/// The instances of a program's statements and their nodes, numbered one behind the other.
pub fn build(
    alloc: Global,
    numbers: &AtomNumbers,
    statements: &[Statement],
    live: &[Items<Items<Value>>],
) -> Result<Built, Memory>
    requires few { length statements.now < 2 ^ 32 }
    requires each { length live.now ≡ length statements.now }
    ensures instances { IfOk result (λ built. built.instances ≡ (in_row (built_statements numbers.now 0 statements.now live.now) 0).0) }
    ensures nodes { IfOk result (λ built. built.nodes ≡ (in_row (built_statements numbers.now 0 statements.now live.now) 0).1) }
{
    let mut built = Built {
        nodes: Items::new(alloc),
        instances: Items::new(alloc),
    };
    built.push_all(alloc, numbers, statements, live)?;
    Ok(built)
}

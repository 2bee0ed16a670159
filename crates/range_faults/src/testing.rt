//! The test of what the search finds: whether the rule leaves the range of numbers from there on.
ghost use Rattle.std.specs.Prelude.{◌≡◌, ◌<◌, ◌∷◌, [], ℕ, false, List, Some, length, drop, slice_get, slice_set, vec_len};
ghost use Rattle.std.specs.List.{list_any};
ghost use Rattle.tel_rule.specs.Atoms.{value_eq};
ghost use Rattle.tel_term.specs.Arithmetic.{expr_value};
ghost use Rattle.tel_term.specs.declared.exprs.Expr.{Expr as ProgramExpr};
ghost use Rattle.rule_binding.specs.Binding.{has, Setting as BindingSetting};
ghost use Rattle.rule_binding.specs.Closure.{marked};
ghost use Rattle.rule_settings.specs.Said.{said as setting_said, all_said as settings_said};
ghost use Rattle.rule_settings.specs.Candidates.{MarksMore};
ghost use Rattle.live_instances.specs.Reached.{is_same, set_by};
ghost use Rattle.join_plans.specs.Join.{at};
ghost use Rattle.plan_order.specs.Goals.{AreBelow};
ghost use Rattle.rule_goals.specs.Said.{said, all_said as goals_said};
ghost use Rattle.range_faults.specs.Stops.{stop};
ghost use Rattle.range_faults.specs.Operations.{all_said};
ghost use Rattle.range_faults.specs.Testing.{agrees, all_agree, leaves, stop_at, stop_number, behind};

use crate::faults::{first_fault, is_range};
use crate::operations::Operation;
use plan_order::Goal;
use plan_search::BindingTest;
use rule_settings::Setting;
use tel_term::{EvalFault, Expr, Symbols, Value, eval};

/// Whether the setting equations of a rule stop from an environment on, since a number leaves the range, where its late goals
/// agree. It has room for the values and for marks of the variables that aren't set.
#[derive(Drop)]
pub struct RangeTest<'a> {
    pub operations: &'a [Operation<'a>],
    pub settings: &'a [Setting<'a>],
    pub late: &'a [Goal<'a>],
    pub values: Vec<Value>,
    pub unset: Vec<bool>,
}

// ---- late goals

fn is_same(a: Value, b: Value) -> bool
    ensures { result ≡ value_eq a b }
{
    match a {
        Value::Num(m) => match b {
            Value::Num(n) => m == n,
            Value::Sym(_) => false,
        },
        Value::Sym(m) => match b {
            Value::Num(_) => false,
            Value::Sym(n) => m == n,
        },
    }
}

/// The value at a place, and 0 past the end.
fn value_at(values: &[Value], place: u32) -> Value
    ensures { result ≡ at values.now place }
{
    values.get(place as usize).copied().unwrap_or(Value::Num(0))
}

/// Whether an expression has the value at a place.
fn has_value(expr: &Expr, place: u32, values: &[Value]) -> bool
    ensures { result ≡ is_same (expr_value values.now expr.now) (at values.now place) }
{
    match eval(expr, values) {
        Ok(value) => is_same(value, value_at(values, place)),
        Err(_) => false,
    }
}

/// Whether a variable has a mark.
pub fn is_marked(marks: &[bool], v: u32) -> bool
    ensures { result ≡ marked marks.now v }
{
    marks.get(v as usize).copied().unwrap_or(false)
}

/// Whether one of these variables has a mark.
fn any_marked(marks: &[bool], vars: &[u32]) -> bool
    ensures { result ≡ list_any (marked marks.now) vars.now }
{
    for v in vars {
        if is_marked(marks, *v) {
            return true;
        }
    }
    false
}

/// Whether a goal agrees, where the variables with a mark aren't set.
fn agrees(goal: &Goal<'_>, unset: &[bool], values: &[Value]) -> bool
    ensures { result ≡ agrees (marked unset.now) values.now (said goal.now) }
{
    match goal {
        Goal::Row(_, _) => true,
        Goal::Equal(place, expr, reads) => {
            any_marked(unset, reads.as_slice()) || has_value(*expr, *place, values)
        }
        Goal::Compare(_, _, _, _) => true,
    }
}

/// Whether all goals agree.
fn all_agree(goals: &[Goal<'_>], unset: &[bool], values: &[Value]) -> bool
    ensures { result ≡ all_agree (marked unset.now) values.now (goals_said goals.now) }
{
    for goal in goals {
        if !agrees(goal, unset, values) {
            return false;
        }
    }
    true
}

// ---- setting equations

/// The setting equation with a number.
fn setting_at<'a>(settings: &[Setting<'a>], number: usize) -> Setting<'a>
    requires { number < length settings.now }
    ensures { slice_get settings.now number ≡ Some result }
{
    settings[number]
}

/// The stop at a setting equation with this number, where its fault leaves the range.
fn stop_by(fault: EvalFault, number: usize) -> Option<usize>
    ensures { result ≡ stop_number fault number }
{
    match fault {
        EvalFault::Undefined => None,
        EvalFault::Range => Some(number),
    }
}

/// Gives a place a value.
fn put_value(values: &mut [Value], place: u32, value: Value)
    requires { place < length values.old }
    ensures put { values.new ≡ slice_set values.old place value }
    ensures len { length values.new ≡ length values.old }
{
    values[place as usize] = value;
}

/// Gives the variable of a setting equation its value; a fault stands in the place of one.
fn set_one(setting: Setting<'_>, values: &mut [Value]) -> Option<EvalFault>
    requires { setting.var < length values.old }
    ensures goes { (exprs : List ProgramExpr) (more : List BindingSetting) → stop exprs values.old (setting_said setting.entry ∷ more) ≡ behind exprs (setting_said setting.entry) more values.new result }
    ensures len { length values.new ≡ length values.old }
{
    match eval(setting.value, values) {
        Ok(value) => {
            put_value(values, setting.var, value);
            None
        }
        Err(fault) => Some(fault),
    }
}

/// Gives variables their values, one setting equation after another, up to the first one that has a fault, and says which one leaves
/// the range: the number behind the last one says that another expression does.
fn settle(
    operations: &[Operation<'_>],
    settings: &[Setting<'_>],
    values: &mut [Value],
) -> Option<usize>
    requires { AreBelow (length values.old) (set_by (settings_said settings.now)) }
    ensures stop { stop (all_said operations.now) values.old (settings_said settings.now) ≡ stop_at (settings_said settings.now) values.new result }
    ensures len { length values.new ≡ length values.old }
{
    for number in 0..settings.len() {
        let setting = setting_at(settings, number);
        if let Some(fault) = set_one(setting, values) {
            return stop_by(fault, number);
        }
    }
    if is_range(first_fault(operations, values)) {
        Some(settings.len())
    } else {
        None
    }
}

/// Marks the variable of a setting equation.
fn mark_setting(unset: &mut [bool], setting: Setting<'_>)
    ensures marks { MarksMore unset.old unset.new (setting.entry.var ∷ []) }
    ensures len { length unset.new ≡ length unset.old }
{
    let at = setting.var as usize;
    if at < unset.len() {
        unset[at] = true;
    }
}

/// Takes all marks away.
fn clear(unset: &mut [bool])
    ensures marks { (v : ℕ) → marked unset.new v ≡ false }
    ensures len { length unset.new ≡ length unset.old }
{
    unset.fill(false);
}

/// Marks the variables of the setting equations from this number on, and no other.
fn mark_unset(unset: &mut [bool], settings: &[Setting<'_>], from: usize)
    ensures marks { (v : ℕ) → v < length unset.old → marked unset.new v ≡ has (set_by (drop from (settings_said settings.now))) v }
    ensures len { length unset.new ≡ length unset.old }
{
    clear(unset);
    for number in from..settings.len() {
        let setting = setting_at(settings, number);
        mark_setting(unset, setting);
    }
}

// ---- the test

/// Whether the setting equations stop from an environment on, since a number leaves the range, where the late goals agree. `values` and
/// `unset` are room to work in.
fn leaves(
    operations: &[Operation<'_>],
    settings: &[Setting<'_>],
    late: &[Goal<'_>],
    values: &mut [Value],
    unset: &mut [bool],
    env: &[Value],
) -> bool
    requires values { length values.old ≡ length env.now }
    requires unset { length unset.old ≡ length env.now }
    requires below { AreBelow (length env.now) (set_by (settings_said settings.now)) }
    ensures leaves { result ≡ leaves (all_said operations.now) (settings_said settings.now) (goals_said late.now) env.now }
    ensures values { length values.new ≡ length values.old }
    ensures unset { length unset.new ≡ length unset.old }
{
    values.copy_from_slice(env);
    match settle(operations, settings, values) {
        Some(number) => {
            mark_unset(unset, settings, number);
            all_agree(late, unset, values)
        }
        None => false,
    }
}

impl BindingTest for RangeTest<'_> {
    ghost can_test = { λ test symbols places. (vec_len test.values ≡ places) × (vec_len test.unset ≡ places) × AreBelow places (set_by (settings_said test.settings.now)) };

    ghost passes = { λ test symbols env. leaves (all_said test.operations.now) (settings_said test.settings.now) (goals_said test.late.now) env };

    fn passes(&mut self, _symbols: &Symbols, env: &[Value]) -> bool {
        leaves(
            self.operations,
            self.settings,
            self.late,
            self.values.as_mut_slice(),
            self.unset.as_mut_slice(),
            env,
        )
    }
}

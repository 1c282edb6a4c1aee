// Declarators of local variables with their initialisers (C89, 3.5.4 and 3.5.7).
ghost use Rattle.std.specs.Prelude.{◌≡◌, ◌+◌, ◌≤◌, ℕ, List, Some, IfOk, OnOk};
ghost use Rattle.c_events.specs.declared.events.Event.{Event};
ghost use Rattle.c_syntax.specs.Shape.{TypeOf, one_init};
ghost use Rattle.c_syntax.specs.View.{declarator_shape, maybe_init, init_shape};
ghost use Rattle.c_tables.specs.Tables.{tables_shape};
ghost use Rattle.c_meaning.specs.State.{instance_of};
ghost use Rattle.c_meaning.specs.Layout.{variable_kind};
ghost use Rattle.c_meaning.specs.Firsts.{quiet};
ghost use Rattle.c_meaning.specs.Counts.{variables_of};
ghost use Rattle.c_meaning.specs.Knot.{Knot};
ghost use Rattle.c_meaning.specs.Declarations.{initialised, declared_name};
ghost use Rattle.c_world.specs.Names.{IsActive, scope_counts};
ghost use Rattle.c_world.specs.Steps.{filled_object};
ghost use Rattle.c_world.specs.World.{state_of, tables_of, answered, Same};
ghost use Rattle.c_machine.specs.Forms.{is_array_kind};
ghost use Rattle.c_machine_direct.specs.Kept.{Kept};
ghost use Rattle.c_machine.specs.Todo.{init_flow, declared_as};

use crate::parts::{Declared, Use};
use c_base::place::NoMemory;
use c_compute::operators::converted;
use c_meaning::end::Stop;
use c_store::value::{Fault, Value};
use c_syntax::tree::{CType, DeclForm, Declarator, Init, Named};
use c_tables::tables::Tables;
use c_world::world::World;

/// One declarator, of which the variable, where it declares one, has that number: its instance is made, and filled where no
/// expression is evaluated for that.
pub fn declare_one<'p>(
    world: &mut World<'p>,
    declarator: &'p Declarator,
    variable: u32,
) -> Result<Declared<'p>, NoMemory>
    requires { IsActive world.old.names.calls }
    ensures done { IfOk result (λ r. (k : Knot) (h : List Event) (n : ℕ) → variable ≡ n + variables_of (declarator_shape declarator.now) → declared_as (tables_of world.old) k r (state_of world.new h) ≡ declared_name (tables_of world.old) k (declarator_shape declarator.now) (quiet n) (state_of world.old h)) }
    ensures same { OnOk result (Same world.old world.new) }
    ensures counts { OnOk result (scope_counts world.new.names.calls ≡ scope_counts world.old.names.calls) }
    ensures turns { OnOk result (world.new.turns ≤ world.old.turns) }
{
    match &declarator.form {
        DeclForm::Function(_) => Ok(Declared::Done),
        DeclForm::Arrays(_) => match world.declare(variable)? {
            Some(why) => Ok(Declared::Stopped(why)),
            None => {
                let declared = initialise(world, declarator, variable)?;
                Ok(declared)
            }
        },
    }
}

// The variable of that number, whose instance is made.
fn initialise<'p>(
    world: &mut World<'p>,
    declarator: &'p Declarator,
    variable: u32,
) -> Result<Declared<'p>, NoMemory>
    ensures done { IfOk result (λ r. (k : Knot) (h : List Event) (n j : ℕ) (y : TypeOf) → variable_kind (tables_of world.old) variable ≡ Some y → instance_of variable (state_of world.old h) ≡ Some j → declared_as (tables_of world.old) k r (state_of world.new h) ≡ initialised (tables_of world.old) k y declarator.now.name (quiet n) j (maybe_init declarator.now.init) (state_of world.old h)) }
    ensures kept { OnOk result (Kept world.old world.new) }
{
    match &declarator.init {
        None => Ok(Declared::Done),
        Some(init) => {
            let declared = fill(world, &declarator.name, init, variable)?;
            Ok(declared)
        }
    }
}

// The same with an initialiser.
fn fill<'p>(
    world: &mut World<'p>,
    name: &'p Option<Named>,
    init: &'p Init,
    variable: u32,
) -> Result<Declared<'p>, NoMemory>
    ensures done { IfOk result (λ r. (k : Knot) (h : List Event) (n j : ℕ) (y : TypeOf) → variable_kind (tables_of world.old) variable ≡ Some y → instance_of variable (state_of world.old h) ≡ Some j → declared_as (tables_of world.old) k r (state_of world.new h) ≡ initialised (tables_of world.old) k y name.now (quiet n) j (one_init (init_shape init.now)) (state_of world.old h)) }
    ensures kept { OnOk result (Kept world.old world.new) }
{
    match init {
        Init::List(_, _, _) => {
            let declared = fill_object(world, name, init, variable)?;
            Ok(declared)
        }
        Init::One(node) => {
            if is_array(world.tables(), variable) {
                let declared = fill_object(world, name, init, variable)?;
                return Ok(declared);
            }
            match world.instance(variable) {
                None => Ok(Declared::Stopped(Stop::Fault(Fault::NoResult))),
                Some(instance) => Ok(Declared::Value(node, Use::Init(instance, variable, name))),
            }
        }
    }
}

// With one that is constant.
fn fill_object<'p>(
    world: &mut World<'p>,
    name: &Option<Named>,
    init: &Init,
    variable: u32,
) -> Result<Declared<'p>, NoMemory>
    ensures done { IfOk result (λ r. (k : Knot) (h : List Event) (n : ℕ) → declared_as (tables_of world.old) k r (state_of world.new h) ≡ filled_object (tables_of world.old) variable name.now (init_shape init.now) (quiet n) (state_of world.old h)) }
    ensures kept { OnOk result (Kept world.old world.new) }
{
    match world.fill_object(variable, name, init)? {
        None => Ok(Declared::Done),
        Some(why) => Ok(Declared::Stopped(why)),
    }
}

// Whether the variable of that number is an array.
fn is_array(tables: &Tables, variable: u32) -> bool
    ensures { result ≡ is_array_kind (variable_kind (tables_shape tables.now) variable) }
{
    if variable == 0 || variable > tables.variables() {
        return false;
    }
    match &tables.variable(variable).kind {
        CType::Array(_, _) => true,
        _ => false,
    }
}

/// Writes the value of an initialiser, in the type of the variable of that number, into that instance.
pub fn write_initial(
    world: &mut World<'_>,
    instance: u64,
    variable: u32,
    name: &Option<Named>,
    value: Value,
) -> Result<Option<Stop>, NoMemory>
    ensures done { IfOk result (λ r. (h : List Event) → init_flow (tables_of world.old) instance variable name.now value (state_of world.old h) ≡ answered r (state_of world.new h)) }
    ensures kept { OnOk result (Kept world.old world.new) }
{
    let tables = world.tables();
    if variable == 0 || variable > tables.variables() {
        return Ok(Some(Stop::Fault(Fault::NoResult)));
    }
    let value = converted(&tables.variable(variable).kind, value);
    let stopped = world.write_scalar(name, instance, value)?;
    Ok(stopped)
}

//! The laws on functions' bodies and where they begin, as contracts.

ghost use Rattle.flow_values.specs.Bodies.{BodiesAreInitialised, ConstantsSuffice};
ghost use Rattle.flow_values.specs.Programs.{ParametersHaveRows, AcceptedIsInitialised};

/// In a body of which nothing is complained each declarator has the row that the walk counts for it, and what initialises it is typed for that row's type.
pub fn bodies_are_initialised()
    ensures { BodiesAreInitialised }
{}

/// An initialiser of which nothing is complained gives its variable a value, where what typing takes for a constant initialiser has a value.
pub fn constants_suffice()
    ensures { ConstantsSuffice }
{}

/// In a program of the checker each string and each list that initialises a local variable gives it a value, where each parameter has a row and
/// what typing takes for a constant initialiser has a value.
pub fn accepted_is_initialised()
    ensures { AcceptedIsInitialised }
{}

/// Where a function's body begins, each parameter has a row among the variables, if nothing is complained of the function's type and its parameters.
pub fn parameters_have_rows()
    ensures { ParametersHaveRows }
{}

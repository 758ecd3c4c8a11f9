// Laws of values, each the contract of a function with an empty body.

ghost use Rattle.task_ast.specs.laws.Registers.{ControlValueLaw, FirstEntryLaw, NumberLaw, SlotLaw, UndeclaredLaw};

/// An expression without data variables has one value whatever the registers hold.
pub fn control_value_law()
    ensures { ControlValueLaw }
{}

/// Setting a control variable sets the first entry of its name alone, and a write to a register that isn't declared
/// changes nothing.
pub fn set_value_laws()
    ensures first { FirstEntryLaw }
    ensures number { NumberLaw }
    ensures slot { SlotLaw }
    ensures undeclared { UndeclaredLaw }
{}

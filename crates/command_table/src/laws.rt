//! Laws on the table of commands. Each function does nothing: its contract is the law.
ghost use Rattle.command_table.specs.Laws.{OneNumber, OneName};

/// No two opcodes share a number.
pub fn one_number()
    ensures { OneNumber }
{}

/// No two opcodes share a name.
pub fn one_name()
    ensures { OneName }
{}

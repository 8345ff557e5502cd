// The theorem of a cell, as the contract of a function.
ghost use Rattle.cell.specs.Theorems.{CellObeys};

// A cell without a start that takes the links of a state gives a blank link, and then the links of the state after the rule's command.
pub fn cells_obey()
    ensures { CellObeys }
{}

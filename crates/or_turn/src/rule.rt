//! The rule of the turn, part by part.
ghost use Rattle.atomic_table.specs.Table.{State};
ghost use Rattle.std.specs.Prelude.{Option};
ghost use Rattle.or_turn.specs.declared.view.Transfer.{Transfer};
ghost use Rattle.or_turn.specs.declared.view.OpenedWith.{OpenedWith};
ghost use Rattle.or_turn.specs.declared.view.View.{View};
ghost use Rattle.or_turn.specs.Rule.{Turns, settings_of};
ghost use Rattle.or_turn.specs.Parts.{Parts};

/// Whatever the table is between two steps, each part of the rule holds of it.
pub fn each_part_holds()
    ensures { (k : OpenedWith) (s : State (Option Transfer) View) → Turns k s → Parts (settings_of k) s }
{}

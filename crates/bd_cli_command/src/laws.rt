//! A law of commands. Its body is empty: its contract is the law.

ghost use Rattle.std.specs.Prelude.{◌≡◌, ◌↔◌, Ok, Err};
ghost use Rattle.bd_value.specs.Tree.{Doc};
ghost use Rattle.bd_cli_command.specs.Command.{Command as CommandTree};
ghost use Rattle.bd_cli_command.specs.CommandOf.{IsCommandDocument, IsFaultOf, command_of};
ghost use Rattle.bd_cli_command.specs.declared.command.CommandFault.{CommandFault as Fault};

/// A document is a command exactly if its fields follow the rules, and is refused exactly for the first rule that it breaks.
pub fn faulty_documents_alone_are_no_commands()
    ensures commands { (d : Doc) →
        ((c : CommandTree) × (command_of d ≡ Ok c)) ↔ IsCommandDocument d }
    ensures faults { (d : Doc) (f : Fault) → (command_of d ≡ Err f) ↔ IsFaultOf d f }
{}

//! A law of the command line. The contract is the law; the function does nothing.
ghost use Rattle.std.specs.Prelude.{◌≡◌, true};
ghost use Rattle.clap.specs.Words.{is_simple};
ghost use Rattle.pstops_cli.specs.Command.{pstops};

/// The command is simple: whether it takes words, and which values it finds among them, depends only on the words.
#[tactic(auto, using(crate::proofs::SimpleCommand::pstops_is_simple))]
pub fn the_command_is_simple()
    ensures { is_simple pstops ≡ true }
{}

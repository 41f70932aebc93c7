// The command line as `clap` reads it.
ghost use Rattle.std.specs.Prelude.{◌≡◌, IfOk, map, false};
ghost use Rattle.clap.specs.Words.{app_of, with_subcommand};
ghost use Rattle.clap.specs.declared.builder.command.Command.TheViews.{out-Command};
ghost use Rattle.ksi_words.specs.Grammar.{app_over, bare, row_app, form_of};

use crate::table::CommandForm;
use clap::{Arg, Command};
use std::alloc::{AllocError, Global};

/// The grammar of the rows' commands: a row's name, and as many words after it as the row shows.
pub(crate) fn grammar<'a>(alloc: Global, rows: &[CommandForm]) -> Result<Command<'a>, AllocError>
    ensures { IfOk result (λ grammar. app_of grammar ≡ app_over (map form_of rows.now)) }
{
    let mut grammar = without_rows(alloc);
    'rows: for row in rows {
        grammar = with_row(alloc, grammar, row)?;
    }
    Ok(grammar)
}

fn without_rows<'a>(alloc: Global) -> Command<'a>
    ensures { app_of result ≡ bare }
{
    Command::new(alloc, "ksi")
        .no_binary_name(true)
        .disable_help_flag(true)
        .disable_help_subcommand(true)
        .subcommand_required(true)
}

fn with_row<'a>(
    alloc: Global,
    grammar: Command<'a>,
    row: &CommandForm,
) -> Result<Command<'a>, AllocError>
    ensures { IfOk result (λ more. app_of more ≡ with_subcommand (app_of grammar.entry) (row_app (form_of row.now)).top) }
{
    let form = form(alloc, row)?;
    grammar.subcommand(form)
}

fn form<'a>(alloc: Global, row: &CommandForm) -> Result<Command<'a>, AllocError>
    ensures { IfOk result (λ form. (app_of form ≡ row_app (form_of row.now)) × ((out-Command form).has_globals ≡ false)) }
{
    let words = Arg::new(alloc, "words").required(true).num_args(row.words);
    Command::new(alloc, row.name).arg(words)
}

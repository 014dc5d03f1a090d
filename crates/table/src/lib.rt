// The table file: the check of any bytes, and lookups in a checked table.
#![tactic(auto)]

ghost use Rattle.std.specs.Prelude.{◌≡◌};
ghost use Rattle.meaning.specs.TableFile.{rule_of, action_of, goto_of};
ghost use Rattle.meaning.specs.TableRight.{content_right, action_format};
ghost use Rattle.table.specs.Answers.{check_of, checked_of, action_answer, goto_answer};
ghost use Rattle.table.specs.Bounds.{ActionWithin};
ghost use Rattle.table.specs.Records.{Framed, Sound, start_in};

use actions::Actions;
use gotos::Gotos;
use meaning::{Rule, START_CLASS, StateNo, View};
use records::records_right;
use std::marker::Model;

pub mod actions;
pub mod frame;
pub mod gotos;
pub mod reading;
pub mod records;
pub mod rules;

// What a state does at a class: the state that it shifts to, if it shifts, how many rules it reduces by, and which (0 past the count).
#[derive(Clone, Copy, Debug, PartialEq, Eq)]
pub struct Action {
    pub shift: Option<StateNo>,
    pub count: u8,
    pub rules: [u16; 4],
}

// The bytes of a table file that were found right, and where things stand in them. Clauses see the table that the bytes say.
#[derive(Drop)]
pub struct Table<'a> {
    pub bytes: &'a [u8],
    pub view: View,
}

impl<'a> Model for Table<'a> {
    ghost use Rattle.meaning.specs.TableFile.{table_of, Table as Decoded};

    ghost Value = { Decoded };

    ghost use Rattle.table.specs.Belonging.{Belongs};

    ghost view = { λ t. table_of t.bytes.now };

    ghost invariant = { λ t. Belongs t.bytes.now t.view };
}

fn content_right(table: &[u8], view: View) -> bool
    requires { Framed table.now view }
    ensures { result ≡ content_right table.now view }
{
    let View {
        counts,
        rules,
        actions,
        gotos,
        ..
    } = view;
    rules::rules_right(table, counts, counts.rules, rules.at)
        && records_right::<Actions>(table, counts, actions.at, actions.end)
        && records_right::<Gotos>(table, counts, gotos.at, gotos.end)
}

// Whether state 0 shifts at the class of the start.
fn starts(table: &[u8], view: View) -> bool
    requires { Sound (action_format table.now view.counts) table.now view.actions.at view.actions.end }
    ensures { result ≡ start_in table.now view }
{
    actions::find_action(table, view, 0, START_CLASS)
        .shift
        .is_some()
}

// Where things stand in the bytes, which may be any, if they are a right table file.
pub fn check_table(table: &[u8]) -> Option<View>
    ensures { result ≡ check_of table.now }
{
    let view = frame::view_of(table);
    if frame::frame_right(table, view) && content_right(table, view) && starts(table, view) {
        return Some(view);
    }
    None
}

impl<'a> Table<'a> {
    // The table of the bytes, which may be any, if they are a right table file.
    pub fn check(bytes: &'a [u8]) -> Option<Table<'a>>
        ensures { result ≡ checked_of bytes.now }
    {
        let view = check_table(bytes)?;
        Some(Table { bytes, view })
    }

    pub fn states(&self) -> u16
        ensures { result ≡ self.now.counts.states }
    {
        self.view.counts.states
    }

    pub fn classes(&self) -> u16
        ensures { result ≡ self.now.counts.classes }
    {
        self.view.counts.classes
    }

    // Whether the error class is used.
    pub fn recovers(&self) -> bool
        ensures { result ≡ self.now.recovers }
    {
        self.view.recovers
    }

    // The rule of a number; all zero if there is none.
    pub fn rule(&self, number: u16) -> Rule
        ensures { result ≡ rule_of self.now number }
    {
        rules::find_rule(
            self.bytes,
            self.view.counts.rules,
            self.view.rules.at,
            number,
        )
    }

    // What a state does at a class; neither shift nor rules if there is no record.
    pub fn action(&self, state: StateNo, class: u16) -> Action
        ensures is { result ≡ action_answer (action_of self.now state.0 class) }
        ensures within { ActionWithin self.now.counts result }
    {
        actions::find_action(self.bytes, self.view, state.0, class)
    }

    // Where a state goes on after a reduction to a nonterminal.
    pub fn goto(&self, state: StateNo, nonterminal: u16) -> Option<StateNo>
        ensures { result ≡ goto_answer (goto_of self.now state.0 nonterminal) }
    {
        gotos::find_goto(self.bytes, self.view, state.0, nonterminal)
    }
}

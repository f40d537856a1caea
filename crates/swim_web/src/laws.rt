//! A law of tables as JSON. It is the contract of a function that does nothing, so that it stays proved.

ghost use Rattle.std.specs.Prelude.{◌≡◌, List};
ghost use Rattle.swim_history.specs.declared.rows.Row.{Row};
ghost use Rattle.swim_web.specs.Objects.{members_text};
ghost use Rattle.swim_web.specs.Tables.{IsTable};

/// The JSON of a table says each of its rows, and that there are no others: no two tables have the same.
pub fn members_are_told()
    ensures { (rows others : List Row) → IsTable rows → IsTable others →
        members_text rows ≡ members_text others → rows ≡ others }
{}

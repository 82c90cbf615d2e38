// The movements of a statement in a lent table: what fills it is planned first, then each 04 is read into its row.
#![tactic(auto)]

ghost use Rattle.std.specs.Prelude.{◌≡◌, ◌≤◌, length};
ghost use Rattle.tables.specs.Tables.{laid};
ghost use Rattle.tables.specs.Steps.{row_step_of, rows_from, Planned};
ghost use Rattle.tables.specs.Answers.{Movements};

use fields::Movement;
use framing::{Form, Reason, Refusal};
use readers::Step;
use records::RECORD;

// A movement's row, and the place after its last 05.
#[derive(Clone, Copy)]
struct RowStep {
    row: Movement,
    next: usize,
}

// What fills a table: the statement's part of the file, the place of its first 04 there, and how many rows.
#[derive(Clone, Copy)]
struct Plan<'a> {
    part: &'a [u8],
    at: usize,
    rows: usize,
}

// The row of the movement at a place of a part, and the place after it.
#[tactic(auto, using(crate::proofs::Reading::stepped), unfolding(crate::specs::Steps::row_step_of))]
fn row_step(part: &[u8], form: Form, at: usize) -> RowStep
    ensures { result ≡ row_step_of part.now form at }
{
    let none = Step {
        complements: 0,
        next: part.len(),
    };
    let step = readers::movement_step(part, form, at).unwrap_or(none);
    RowStep {
        row: fields::row_at(contents::record_at(part, at), step.complements),
        next: step.next,
    }
}

// What fills a table of so many rows. The whole file is judged first.
#[tactic(auto, using(crate::proofs::Reading::planned_none, crate::proofs::Reading::ends_small))]
fn plan_of(form: Form, file: &[u8], k: u64, table: usize) -> Result<Plan<'_>, Refusal>
    ensures { Planned form file.now k table result }
{
    let place = readers::statement_place(form, file, k)?;
    let part = place.part(file);
    let n = contents::movements_in(form, part);
    if (table as u64) < n {
        return Err(Reason::ShortTable.at(0));
    }
    Ok(Plan {
        part,
        at: RECORD + form.line_end as usize,
        rows: n as usize,
    })
}

// Rows from the first on become the plan's movements.
fn fill(table: &mut [Movement], form: Form, plan: Plan<'_>)
    requires { plan.rows ≤ length table.old }
    ensures { table.new ≡ laid (rows_from plan.entry.part.now form plan.entry.at plan.entry.rows) table.old }
{
    let mut p = plan.at;
    for row in &mut table[..plan.rows] {
        let step = row_step(plan.part, form, p);
        *row = step.row;
        p = step.next;
    }
}

// The movements of statement k, in the first rows of a lent table: how many. On refusal no row changes.
pub fn movements(form: Form, file: &[u8], k: u64, table: &mut [Movement]) -> Result<u64, Refusal>
    ensures { Movements form file.now k table.old result table.new }
{
    let plan = plan_of(form, file, k, table.len())?;
    fill(table, form, plan);
    Ok(plan.rows as u64)
}

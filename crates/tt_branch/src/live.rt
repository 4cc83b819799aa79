//! The live cells of a path, as a timetable.

ghost use Rattle.std.specs.Prelude.{◌≡◌, ◌<◌, ◌≤◌, [], ◌∷◌, ◌++◌, length, flat_map, filter, IfOk, OnOk};
ghost use Rattle.tt_instance.specs.Cells.{InRange, all_courses, all_cells};
ghost use Rattle.tt_table.specs.declared.table.TheConstants.{MAX_ENTRIES};
ghost use Rattle.tt_path.specs.Live.{is_live};
ghost use Rattle.tt_branch.specs.Inner.Steps.{cells_on, cells_in, cells_of};

use std::alloc::{AllocError, Global};
use tt_path::{Cell, Path};
use tt_table::Timetable;

/// Adds a cell if it is live.
fn push_if_live<'i, P: Path<'i>>(
    path: &P,
    cells: &mut Vec<Cell>,
    cell: Cell,
) -> Result<(), AllocError>
    requires { InRange (P.problem path.now) cell }
    ensures { OnOk result (cells.new.items ≡ cells.old.items ++ filter (is_live (P.problem path.now) (P.facts path.now)) (cell ∷ [])) }
{
    if !path.dead(cell) {
        cells.push(cell)?;
    }
    Ok(())
}

fn push_live_on<'i, P: Path<'i>>(
    path: &P,
    cells: &mut Vec<Cell>,
    course: u32,
    room: u32,
    day: u32,
) -> Result<(), AllocError>
    requires course { course < length (P.problem path.now).courses }
    requires room { room < length (P.problem path.now).rooms }
    requires day { day < (P.problem path.now).days }
    ensures { OnOk result (cells.new.items ≡ cells.old.items ++ filter (is_live (P.problem path.now) (P.facts path.now)) (cells_on (P.problem path.now) course room day)) }
{
    for period in 0..path.instance().periods() {
        let cell = Cell {
            course,
            room,
            day,
            period,
        };
        push_if_live(path, cells, cell)?;
    }
    Ok(())
}

fn push_live_in<'i, P: Path<'i>>(
    path: &P,
    cells: &mut Vec<Cell>,
    course: u32,
    room: u32,
) -> Result<(), AllocError>
    requires course { course < length (P.problem path.now).courses }
    requires room { room < length (P.problem path.now).rooms }
    ensures { OnOk result (cells.new.items ≡ cells.old.items ++ filter (is_live (P.problem path.now) (P.facts path.now)) (cells_in (P.problem path.now) course room)) }
{
    for day in 0..path.instance().days() {
        push_live_on(path, cells, course, room, day)?;
    }
    Ok(())
}

fn push_live_of<'i, P: Path<'i>>(
    path: &P,
    cells: &mut Vec<Cell>,
    course: u32,
) -> Result<(), AllocError>
    requires { course < length (P.problem path.now).courses }
    ensures { OnOk result (cells.new.items ≡ cells.old.items ++ filter (is_live (P.problem path.now) (P.facts path.now)) (cells_of (P.problem path.now) course)) }
{
    for room in 0..path.instance().rooms() {
        push_live_in(path, cells, course, room)?;
    }
    Ok(())
}

/// Returns the live cells of a path, in order.
fn live_cells<'i, P: Path<'i>>(alloc: Global, path: &P) -> Result<Vec<Cell>, AllocError>
    ensures { IfOk result (λ cells. cells.items ≡ filter (is_live (P.problem path.now) (P.facts path.now)) (flat_map (cells_of (P.problem path.now)) (all_courses (P.problem path.now)))) }
{
    let mut cells = Vec::new(alloc);
    for course in 0..path.instance().courses() {
        push_live_of(path, &mut cells, course)?;
    }
    Ok(cells)
}

/// Creates a timetable of entries.
fn table_with(alloc: Global, entries: &[Cell]) -> Result<Timetable, AllocError>
    requires { length entries.now ≤ MAX_ENTRIES }
    ensures { IfOk result (λ table. table ≡ entries.now) }
{
    let mut table = Timetable::new(alloc);
    for entry in entries {
        table.push_below_limit(*entry)?;
    }
    Ok(table)
}

/// Returns the timetable of the live cells of a path.
pub fn live_table<'i, P: Path<'i>>(alloc: Global, path: &P) -> Result<Timetable, AllocError>
    requires { length (filter (is_live (P.problem path.now) (P.facts path.now)) (all_cells (P.problem path.now))) ≤ MAX_ENTRIES }
    ensures { IfOk result (λ table. table ≡ filter (is_live (P.problem path.now) (P.facts path.now)) (all_cells (P.problem path.now))) }
{
    let cells = live_cells(alloc, path)?;
    table_with(alloc, cells.as_slice())
}

//! What a journal begins with: its header, and the image, which is the rows that the tables hold.

ghost use Rattle.std.specs.Prelude.{◌≡◌, ◌++◌, map, IfOk, OnOk};
ghost use Rattle.assertion.specs.Declarations.{layouts_in};
ghost use Rattle.durable.specs.Images.{image_file, image_from, insertion_of};

use delta::View;
use journal::{Header, Lines, sum_of};
use mvrows::Rows;
use std::alloc::{AllocError, Global};
use table::{Change, Row};
use value::Value;

/// The first bytes of a journal of these definitions, in which the commit of this number left these tables: its header,
/// and their image.
pub fn spell_image(
    alloc: Global,
    definitions: &[u8],
    view: &View,
    number: u64,
) -> Result<Lines, AllocError>
    ensures { IfOk result (λ lines. lines ≡ image_file definitions.now number view.now) }
{
    let mut lines = Lines::new(alloc);
    let header = Header {
        first: number,
        declared: sum_of(definitions),
    };
    lines.add_header(&header)?;
    let image = image_of(alloc, view)?;
    lines.add_commit(number, number, image.as_slice())?;
    Ok(lines)
}

/// The changes that put each row of these tables into tables without rows.
fn image_of(alloc: Global, view: &View) -> Result<Vec<Change>, AllocError>
    ensures { IfOk result (λ image. image.items ≡ image_from (layouts_in view.now.declared) 0 view.now.state) }
{
    let mut image = Vec::new(alloc);
    for table in 0..view.catalog().len() {
        push_rows(&mut image, table, view.key_column(table), view.rows(table))?;
    }
    Ok(image)
}

/// The changes that put rows into a table.
fn push_rows(
    image: &mut Vec<Change>,
    table: usize,
    key: usize,
    rows: &Rows,
) -> Result<(), AllocError>
    ensures { OnOk result (image.new.items ≡ image.old.items ++ map (insertion_of table key) rows.now) }
{
    for row in rows.iter() {
        image.push(insertion_of(table, key, row)?)?;
    }
    Ok(())
}

/// The change that puts a row into a table.
fn insertion_of(table: usize, key: usize, row: &Row) -> Result<Change, AllocError>
    ensures { IfOk result (λ change. change ≡ insertion_of table key row.now) }
{
    let key = match row.values().get(key) {
        Some(value) => value.copy()?,
        None => Value::Null,
    };
    Ok(Change {
        table,
        key,
        old: None,
        new: Some(row.copy()?),
    })
}

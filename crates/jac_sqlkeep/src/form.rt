//! The form of a keeper's database: its two tables, and the index of the key of the second one.
ghost use Rattle.std.specs.Prelude.{◌≡◌, ◌∷◌, [], true};
ghost use Rattle.sqlite_value.specs.Keys.{plain};
ghost use Rattle.sqlite.specs.Held.{state};
ghost use Rattle.sqlite.specs.State.{IsLive};
ghost use Rattle.jac_sql_spec.specs.Tables.{two_tables, meta, rec, only_key};
ghost use Rattle.jac_sqlkeep.specs.Form.{column_of, rec_columns, IsPlainTable};

use sqlite::{Alter, Connection};
use sqlite_schema::schema::{Column, Index, Kind, Schema, Table};
use sqlite_value::keys::{Collation, Order};
use sqlite_value::value::Value;

/// Whether the database has a keeper's tables, in the trees where a keeper makes them, and nothing
/// else.
pub fn has_form<S: Alter>(conn: &Connection<S>) -> bool
    ensures form { result ≡ true → (state S.Store conn.now).now.schema ≡ two_tables 0 1 2 }
    ensures live { IsLive (state S.Store conn.now) }
{
    is_form(conn.schema())
}

#[tactic(auto, using(crate::proofs::Parts::form_is))]
fn is_form(schema: &Schema) -> bool
    ensures { result ≡ true → schema.now ≡ two_tables 0 1 2 }
{
    let [numbers, rows] = schema.tables.as_slice() else {
        return false;
    };
    let [index] = schema.indexes.as_slice() else {
        return false;
    };
    if !schema.views.is_empty() {
        return false;
    }
    if !is_meta(numbers) {
        return false;
    }
    if !is_rec(rows) {
        return false;
    }
    is_key_index(index)
}

#[tactic(auto, using(crate::proofs::Parts::meta_is))]
fn is_meta(table: &Table) -> bool
    ensures { result ≡ true → table.now ≡ meta 0 }
{
    let [key, number, schema] = table.columns.as_slice() else {
        return false;
    };
    if !is_column(key, b"k", Kind::Integer, false) {
        return false;
    }
    if !is_column(number, b"number", Kind::Integer, true) {
        return false;
    }
    if !is_column(schema, b"schema", Kind::Text, true) {
        return false;
    }
    let Some(0) = table.key else {
        return false;
    };
    let [0] = table.primary.as_slice() else {
        return false;
    };
    if !table.uniques.is_empty() {
        return false;
    }
    if !table.orders.is_empty() {
        return false;
    }
    is_plain_table(table, b"meta", 0)
}

#[tactic(auto, using(crate::proofs::Parts::rec_is))]
fn is_rec(table: &Table) -> bool
    ensures { result ≡ true → table.now ≡ rec 1 }
{
    if !are_rec_columns(table.columns.as_slice()) {
        return false;
    }
    let None = table.key else {
        return false;
    };
    if !are_key_places(table.primary.as_slice()) {
        return false;
    }
    let [unique] = table.uniques.as_slice() else {
        return false;
    };
    if !are_key_places(unique.as_slice()) {
        return false;
    }
    let [order] = table.orders.as_slice() else {
        return false;
    };
    if !is_plain_order(*order) {
        return false;
    }
    is_plain_table(table, b"rec", 1)
}

#[tactic(auto, using(crate::proofs::Parts::rec_columns_are))]
fn are_rec_columns(columns: &[Column]) -> bool
    ensures { result ≡ true → columns.now ≡ rec_columns }
{
    let [model, jid, alt, jvars, body] = columns else {
        return false;
    };
    if !is_column(model, b"model", Kind::Integer, true) {
        return false;
    }
    if !is_column(jid, b"jid", Kind::Blob, true) {
        return false;
    }
    if !is_column(alt, b"alt", Kind::Integer, true) {
        return false;
    }
    if !is_column(jvars, b"jvars", Kind::Blob, true) {
        return false;
    }
    is_column(body, b"body", Kind::Blob, true)
}

#[tactic(auto, using(crate::proofs::Parts::key_is))]
fn is_key_index(index: &Index) -> bool
    ensures { result ≡ true → index.now ≡ only_key 1 2 }
{
    if index.name.as_slice() != b"sqlite_autoindex_rec_1".as_slice() {
        return false;
    }
    if index.tree != 2 {
        return false;
    }
    if index.table != 1 {
        return false;
    }
    if !are_key_places(index.columns.as_slice()) {
        return false;
    }
    if !is_plain_order(index.order) {
        return false;
    }
    index.is_unique
}

#[tactic(auto, using(crate::proofs::Parts::column_is))]
fn is_column(column: &Column, name: &[u8], kind: Kind, not_null: bool) -> bool
    ensures { result ≡ true → column.now ≡ column_of name.now kind not_null }
{
    if column.name.as_slice() != name {
        return false;
    }
    if column.kind != kind {
        return false;
    }
    if !column.is_strict {
        return false;
    }
    let Value::Null = &column.default else {
        return false;
    };
    let Collation::Binary = column.collation else {
        return false;
    };
    column.not_null == not_null
}

// Whether it is a table with this name and tree, without anything that a keeper doesn't use.
fn is_plain_table(table: &Table, name: &[u8], tree: u32) -> bool
    ensures { result ≡ true → IsPlainTable table.now name.now tree }
{
    if table.name.as_slice() != name {
        return false;
    }
    if table.tree != tree {
        return false;
    }
    if !table.checks.roots.is_empty() {
        return false;
    }
    if !table.references.is_empty() {
        return false;
    }
    if !table.computed.is_empty() {
        return false;
    }
    if !table.stamps.places.is_empty() {
        return false;
    }
    if !table.stamps.terms.roots.is_empty() {
        return false;
    }
    if !table.stamps.formats.is_empty() {
        return false;
    }
    !table.is_counted
}

fn are_key_places(places: &[usize]) -> bool
    ensures { result ≡ true → places.now ≡ 1 ∷ 2 ∷ 3 ∷ [] }
{
    let [1, 2, 3] = places else {
        return false;
    };
    true
}

#[tactic(auto, using(crate::proofs::Parts::order_is))]
fn is_plain_order(order: Order) -> bool
    ensures { result ≡ true → order ≡ plain }
{
    order.digits == 0
}

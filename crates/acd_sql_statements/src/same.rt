//! Whether two schemas are the same. A default, a literal or a list that no table of a book has makes a table another one.

ghost use Rattle.std.specs.Prelude.{◌≡◌, ℕ, Bool, true, IsTrue};
ghost use Rattle.std.specs.List.{list_all};
ghost use Rattle.sqlite_sql.specs.Term.{Term};
ghost use Rattle.sqlite_schema.specs.Code.{op_term, term_to, terms_in};
ghost use Rattle.acd_sql_columns.specs.AnyRows.{AreSameFirst};
ghost use Rattle.acd_sql_statements.specs.ComparedSchemas.{is_plain_value, is_plain_term, are_plain_terms, is_plain_column, is_plain_reference, is_plain_stamps, is_plain_table, is_plain_schema, is_plain_first, leaf_value, leaf_of, IsBinaryAt, Tells};

use sqlite_items::Items;
use sqlite_schema::code::{Op, Terms};
use sqlite_schema::schema::{Column, Index, Reference, Schema, Stamps, Table};
use sqlite_sql::ops::BinaryOp;
use sqlite_value::keys::Order;
use sqlite_value::value::Value;

// Values that may be the same as others.
trait Same {
    // it has nothing that no table of a book has
    ghost is_plain: { Self → Bool };

    fn is_same(&self, other: &Self) -> bool
        ensures same { IsTrue result → self.now ≡ other.now }
        ensures back { Tells is_plain self.now other.now result };
}

fn are_same<T: Same>(a: &[T], b: &[T]) -> bool
    ensures same { IsTrue result → a.now ≡ b.now }
    ensures back { Tells (list_all T.is_plain) a.now b.now result }
{
    if a.len() != b.len() {
        return false;
    }
    for at in 0..a.len() {
        if !a[at].is_same(&b[at]) {
            return false;
        }
    }
    true
}

fn is_same_value(a: &Value, b: &Value) -> bool
    ensures same { IsTrue result → a.now ≡ b.now }
    ensures back { Tells is_plain_value a.now b.now result }
{
    match (a, b) {
        (Value::Null, Value::Null) => true,
        (Value::Int(m), Value::Int(n)) => *m == *n,
        _ => false,
    }
}

// A value or a place of which a term consists.
#[derive(Clone, Copy, PartialEq, Eq)]
enum Leaf {
    Nothing,
    Number(i64),
    Place(usize, usize),
}

fn leaf_value(value: &Value) -> Option<Leaf>
    ensures { result ≡ leaf_value value.now }
{
    match value {
        Value::Null => Some(Leaf::Nothing),
        Value::Int(number) => Some(Leaf::Number(*number)),
        _ => None,
    }
}

fn leaf_of(op: &Op) -> Option<Leaf>
    ensures { (below : ℕ → Term) → result ≡ leaf_of (op_term below op.now) }
{
    match op {
        Op::Literal(value) => leaf_value(value),
        Op::Column(slot, at) => Some(Leaf::Place(*slot, *at)),
        _ => None,
    }
}

// The term at a place, if it is no term of others. Beyond the nodes, and where none may be read, it is NULL.
fn leaf_at(ops: &[Op], depth: usize, at: usize) -> Option<Leaf>
    ensures { result ≡ leaf_of (term_to ops.now depth at) }
{
    if depth == 0 {
        return Some(Leaf::Nothing);
    }
    match ops.get(at) {
        Some(op) => leaf_of(op),
        None => Some(Leaf::Nothing),
    }
}

// The operator of the term at a place, and its two terms.
fn binary_at(ops: &[Op], depth: usize, at: usize) -> Option<(BinaryOp, (usize, usize))>
    ensures { IsBinaryAt ops.now depth at result }
{
    if depth == 0 {
        return None;
    }
    match ops.get(at) {
        Some(Op::Binary(op, first, second)) => Some((*op, (*first, *second))),
        _ => None,
    }
}

// Whether two terms are the same, each read to a depth.
fn is_same_term(a: &[Op], depth: usize, at: usize, b: &[Op], other: usize, there: usize) -> bool
    ensures same { IsTrue result → term_to a.now depth at ≡ term_to b.now other there }
    ensures back { Tells is_plain_term (term_to a.now depth at)
        (term_to b.now other there) result }
{
    let leaf = leaf_at(b, other, there);
    if leaf.is_some() {
        return leaf_at(a, depth, at) == leaf;
    }
    match binary_at(b, other, there) {
        None => false,
        Some((op, (first, second))) => match binary_at(a, depth, at) {
            None => false,
            Some((same, (left, right))) => {
                same == op
                    && is_same_term(a, depth - 1, left, b, other - 1, first)
                    && is_same_term(a, depth - 1, right, b, other - 1, second)
            }
        },
    }
}

fn are_same_roots(a: &[Op], roots: &[usize], b: &[Op], others: &[usize]) -> bool
    ensures same { IsTrue result → terms_in a.now roots.now ≡ terms_in b.now others.now }
    ensures back { Tells are_plain_terms (terms_in a.now roots.now)
        (terms_in b.now others.now) result }
{
    if roots.len() != others.len() {
        return false;
    }
    for at in 0..roots.len() {
        if !is_same_term(a, a.len(), roots[at], b, b.len(), others[at]) {
            return false;
        }
    }
    true
}

impl Same for Terms {
    ghost is_plain = { are_plain_terms };

    fn is_same(&self, other: &Self) -> bool {
        are_same_roots(
            self.nodes.as_slice(),
            self.roots.as_slice(),
            other.nodes.as_slice(),
            other.roots.as_slice(),
        )
    }
}

impl Same for Order {
    ghost is_plain = { λ _. true };

    fn is_same(&self, other: &Self) -> bool {
        self.digits == other.digits
    }
}

impl Same for Items<usize> {
    ghost is_plain = { λ _. true };

    fn is_same(&self, other: &Self) -> bool {
        self.as_slice() == other.as_slice()
    }
}

impl Same for Column {
    ghost is_plain = { is_plain_column };

    fn is_same(&self, other: &Self) -> bool {
        self.name.as_slice() == other.name.as_slice()
            && self.kind == other.kind
            && self.is_strict == other.is_strict
            && self.not_null == other.not_null
            && is_same_value(&self.default, &other.default)
            && self.collation == other.collation
    }
}

impl Same for Reference {
    ghost is_plain = { is_plain_reference };

    fn is_same(&self, other: &Self) -> bool {
        self.columns.as_slice() == other.columns.as_slice()
            && self.parent.as_slice() == other.parent.as_slice()
            && self.parent_columns.is_empty()
            && other.parent_columns.is_empty()
            && self.on_delete == other.on_delete
            && self.on_update == other.on_update
            && self.is_deferred == other.is_deferred
    }
}

impl Same for Stamps {
    ghost is_plain = { is_plain_stamps };

    fn is_same(&self, other: &Self) -> bool {
        self.places.is_empty()
            && other.places.is_empty()
            && self.terms.is_same(&other.terms)
            && self.formats.is_empty()
            && other.formats.is_empty()
    }
}

fn are_same_rules(a: &Table, b: &Table) -> bool
    ensures primary { IsTrue result → a.now.primary ≡ b.now.primary }
    ensures uniques { IsTrue result → a.now.uniques ≡ b.now.uniques }
    ensures orders { IsTrue result → a.now.orders ≡ b.now.orders }
    ensures checks { IsTrue result → a.now.checks ≡ b.now.checks }
    ensures references { IsTrue result → a.now.references ≡ b.now.references }
    ensures back { Tells is_plain_table a.now b.now result }
{
    if !are_same(a.uniques.as_slice(), b.uniques.as_slice()) {
        return false;
    }
    if !are_same(a.orders.as_slice(), b.orders.as_slice()) {
        return false;
    }
    if !a.checks.is_same(&b.checks) {
        return false;
    }
    a.primary.as_slice() == b.primary.as_slice()
        && are_same(a.references.as_slice(), b.references.as_slice())
}

fn are_same_columns(a: &Table, b: &Table) -> bool
    ensures name { IsTrue result → a.now.name ≡ b.now.name }
    ensures tree { IsTrue result → a.now.tree ≡ b.now.tree }
    ensures columns { IsTrue result → a.now.columns ≡ b.now.columns }
    ensures key { IsTrue result → a.now.key ≡ b.now.key }
    ensures computed { IsTrue result → a.now.computed ≡ b.now.computed }
    ensures back { Tells is_plain_table a.now b.now result }
{
    a.name.as_slice() == b.name.as_slice()
        && a.tree == b.tree
        && are_same(a.columns.as_slice(), b.columns.as_slice())
        && a.key == b.key
        && a.computed.is_empty()
        && b.computed.is_empty()
}

impl Same for Table {
    ghost is_plain = { is_plain_table };

    fn is_same(&self, other: &Self) -> bool {
        are_same_columns(self, other)
            && are_same_rules(self, other)
            && self.stamps.is_same(&other.stamps)
            && self.is_counted == other.is_counted
    }
}

impl Same for Index {
    ghost is_plain = { λ _. true };

    fn is_same(&self, other: &Self) -> bool {
        self.name.as_slice() == other.name.as_slice()
            && self.tree == other.tree
            && self.table == other.table
            && self.columns.as_slice() == other.columns.as_slice()
            && self.order == other.order
            && self.is_unique == other.is_unique
    }
}

/// Whether the tables and their indexes are the same, and neither has a view.
pub fn is_same_schema(a: &Schema, b: &Schema) -> bool
    ensures same { IsTrue result → a.now ≡ b.now }
    ensures back { Tells is_plain_schema a.now b.now result }
{
    if !are_same(a.tables.as_slice(), b.tables.as_slice()) {
        return false;
    }
    if !are_same(a.indexes.as_slice(), b.indexes.as_slice()) {
        return false;
    }
    a.views.is_empty() && b.views.is_empty()
}

/// Whether the first tables are the same.
pub fn is_same_first(a: &[Table], b: &[Table]) -> bool
    ensures same { IsTrue result → AreSameFirst a.now b.now }
    ensures back { IsTrue (is_plain_first b.now) → AreSameFirst a.now b.now → IsTrue result }
{
    match (a.first(), b.first()) {
        (Some(x), Some(y)) => x.is_same(y),
        _ => false,
    }
}

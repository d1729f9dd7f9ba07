// The kinds of fields, and what each operator takes.
ghost use Rattle.std.specs.Prelude.{◌≡◌};
ghost use Rattle.gr_bind.specs.Columns.{takes_text};
ghost use Rattle.gr_bind.specs.Kinds.{has_wholes, is_compared, is_ordered, is_plain, is_sought, is_sought_in, is_text_field, path_kind};
ghost use Rattle.gr_bind.specs.Typing.{is_tested};

use crate::ValueKind;
use gr_base::Cmp;
use gr_expr::{FieldOp, Literal, Seek};
use gr_values::Path;

// The kind of a field's values.
pub(crate) fn path_kind(path: &Path) -> ValueKind
    ensures { result ≡ path_kind path.now }
{
    let list = path.shape.list;
    if path.shape.of.text_limit().is_some() {
        if list {
            ValueKind::TextVec
        } else {
            ValueKind::Text
        }
    } else if path.shape.of.is_bool() {
        ValueKind::Truth
    } else if list {
        ValueKind::WholeVec
    } else {
        ValueKind::Whole
    }
}

fn is_plain(kind: ValueKind) -> bool
    ensures { result ≡ is_plain kind }
{
    matches!(kind, ValueKind::Whole | ValueKind::Text | ValueKind::Truth)
}

fn is_ordered(kind: ValueKind) -> bool
    ensures { result ≡ is_ordered kind }
{
    matches!(kind, ValueKind::Whole | ValueKind::Text)
}

// Whether a comparison takes values of this kind.
pub(crate) fn is_compared(cmp: Cmp, kind: ValueKind) -> bool
    ensures { result ≡ is_compared cmp kind }
{
    match cmp {
        Cmp::Eq | Cmp::Ne => is_plain(kind),
        Cmp::Lt | Cmp::Le | Cmp::Gt | Cmp::Ge => is_ordered(kind),
    }
}

// Whether this is a text column or a key that is a text.
pub(crate) fn is_text_field(path: &Path) -> bool
    ensures { result ≡ is_text_field path.now }
{
    path.shape.of.text_limit().is_some() && !path.shape.list && !path.shape.reference
}

// Whether a search takes a field.
pub(crate) fn is_sought(seek: Seek, path: &Path) -> bool
    ensures { result ≡ is_sought seek path.now }
{
    match seek {
        Seek::Match => is_text_field(path) || path.shape.list || path.shape.reference,
        Seek::Prefix | Seek::Suffix => path_kind(path).is(ValueKind::Text),
    }
}

fn has_wholes(kind: ValueKind) -> bool
    ensures { result ≡ has_wholes kind }
{
    matches!(kind, ValueKind::Whole | ValueKind::WholeVec)
}

// Whether `@` takes a field with a text.
pub(crate) fn takes_text(path: &Path) -> bool
    ensures { result ≡ takes_text path.now }
{
    is_sought(Seek::Match, path) && !has_wholes(path_kind(path))
}

// Whether a value that is written can be sought in a field.
pub(crate) fn is_sought_in(path: &Path, literal: &Literal) -> bool
    ensures { result ≡ is_sought_in path.now literal.now }
{
    match literal {
        Literal::Number(_) => has_wholes(path_kind(path)),
        Literal::Text(_) => !has_wholes(path_kind(path)),
        Literal::Truth(_) => false,
    }
}

// Whether a test of a query takes a field.
pub(crate) fn is_tested(test: FieldOp, path: &Path) -> bool
    ensures { result ≡ is_tested test path.now }
{
    match test {
        FieldOp::Compare(cmp) => is_compared(cmp, path_kind(path)),
        FieldOp::Find(seek) => is_sought(seek, path),
    }
}

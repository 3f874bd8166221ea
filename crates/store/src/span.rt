// A run of cells in a table, as offset and length.
ghost use Rattle.std.specs.Prelude.{◌≡◌};
ghost use Rattle.std.specs.List.{slice_get};
ghost use Rattle.std.specs.Option.{option_map};
ghost use Rattle.store.specs.Spans.{cells_of};

#[derive(Clone, Copy, PartialEq, Eq, Debug)]
pub struct Span {
    pub offset: usize,
    pub len: usize,
}

// The cells of a span; none where it does not lie inside its table.
pub fn cut<T>(table: &[T], span: Span) -> Option<&[T]>
    ensures { option_map (λ x. x.now) result ≡ cells_of table.now span }
{
    let end = span.offset.checked_add(span.len)?;
    table.get(span.offset..end)
}

// The item at a place; none where there is no such place. Every table of the project is read by this.
pub fn lookup<T: Copy>(items: &[T], i: usize) -> Option<T>
    ensures { result ≡ slice_get items.now i }
{
    items.get(i).copied()
}

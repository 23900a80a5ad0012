// The rows that the next publishing copies. No other crate looks into the marks.
#![tactic(auto)]

ghost use Rattle.std.specs.Prelude.{◌≡◌};
ghost use Rattle.marks.specs.Rows.{widened, no_rows, all_rows, of_span, mark, mark_rows, span_of, span_bad, marks_bad};

// The rows that are marked: from the first to the last, if there are any.
#[derive(Clone, Copy, Debug, PartialEq, Eq)]
pub struct Marks {
    span: Option<(u16, u16)>,
}

fn widen(span: Option<(u16, u16)>, row: u16) -> Option<(u16, u16)>
    ensures { result ≡ widened span row }
{
    match span {
        None => Some((row, row)),
        Some((first, last)) => Some((first.min(row), last.max(row))),
    }
}

fn span_bad(span: Option<(u16, u16)>) -> bool
    ensures { result ≡ span_bad span }
{
    span.is_some_and(|(first, last)| first > last || last > 319)
}

impl Marks {
    // No row.
    #[tactic(auto, unfolding(crate::specs::Rows::no_rows))]
    pub fn none() -> Marks
        ensures answer { result ≡ no_rows }
    {
        Marks { span: None }
    }

    // Every row.
    #[tactic(auto, unfolding(crate::specs::Rows::all_rows))]
    pub fn all() -> Marks
        ensures answer { result ≡ all_rows }
    {
        Marks {
            span: Some((0, 319)),
        }
    }

    // Those of a span as it stands, also of one that no call leaves.
    #[tactic(auto, unfolding(crate::specs::Rows::of_span))]
    pub fn of_span(span: Option<(u16, u16)>) -> Marks
        ensures answer { result ≡ of_span span }
    {
        Marks { span }
    }

    // One row more.
    #[tactic(auto, unfolding(crate::specs::Rows::mark))]
    pub fn mark_row(self, row: u16) -> Marks
        ensures answer { result ≡ mark self row }
    {
        Marks {
            span: widen(self.span, row),
        }
    }

    // Every row from one to another more, in either order.
    pub fn mark_rows(self, a: u16, b: u16) -> Marks
        ensures answer { result ≡ mark_rows self a b }
    {
        self.mark_row(a).mark_row(b)
    }

    // The first and the last marked row.
    #[tactic(auto, unfolding(crate::specs::Rows::span_of))]
    pub fn span(self) -> Option<(u16, u16)>
        ensures answer { result ≡ span_of self }
    {
        self.span
    }

    // Whether no pixel leaves such marks.
    #[tactic(auto, unfolding(crate::specs::Rows::marks_bad))]
    pub fn bad(self) -> bool
        ensures answer { result ≡ marks_bad self }
    {
        span_bad(self.span)
    }
}

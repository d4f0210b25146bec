ghost use Rattle.std.specs.Prelude.{◌≡◌, option_copied};
ghost use Rattle.ic_cells.specs.Layout.{height_of, width_of};

/// The width of a column that was given none, in hundredths.
pub const DEFAULT_COLUMN_WIDTH: u32 = 12_500;

/// The height of a row that was given none, in hundredths.
pub const DEFAULT_ROW_HEIGHT: u32 = 2_800;

/// What was set for a row.
#[derive(Clone, Copy)]
pub struct RowProps {
    /// In hundredths. None where none was set.
    pub height: Option<u32>,
    pub hidden: bool,
    /// The number of its style, from 0. None where none was set.
    pub style: Option<usize>,
}

/// What was set for a column.
#[derive(Clone, Copy)]
pub struct ColumnProps {
    /// In hundredths. None where none was set.
    pub width: Option<u32>,
    pub hidden: bool,
    /// The number of its style, from 0. None where none was set.
    pub style: Option<usize>,
}

/// Cells that are shown as one: the row and the column of the first, from 1, and how many columns and rows they take up.
#[derive(Clone, Copy)]
pub struct Merge {
    pub row: i32,
    pub column: i32,
    pub width: i32,
    pub height: i32,
}

/// The height of a row for which this was set, if anything, in hundredths: 2,800 where no height was.
pub fn row_height(props: Option<&RowProps>) -> u32
    ensures { result ≡ height_of (option_copied props.entry) }
{
    match props {
        Some(
            RowProps {
                height: Some(height),
                ..
            },
        ) => *height,
        _ => DEFAULT_ROW_HEIGHT,
    }
}

/// The width of a column for which this was set, if anything, in hundredths: 12,500 where no width was.
pub fn column_width(props: Option<&ColumnProps>) -> u32
    ensures { result ≡ width_of (option_copied props.entry) }
{
    match props {
        Some(
            ColumnProps {
                width: Some(width),
                ..
            },
        ) => *width,
        _ => DEFAULT_COLUMN_WIDTH,
    }
}

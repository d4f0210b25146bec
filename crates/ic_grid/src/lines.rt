//! What is set for rows and columns: heights and widths in hundredths, whether they are hidden, and styles.
ghost use Rattle.std.specs.Prelude.{◌≡◌, IsSome, OnErr, OnOk, Some, option_and_then};
ghost use Rattle.std.specs.FinMap as finite;
ghost use Rattle.ic_cells.specs.Layout.{height_of, width_of};
ghost use Rattle.ic_grid.specs.Lines.{column_at, row_at, with_column_hidden, with_column_style, with_column_width, with_row_height, with_row_hidden, with_row_style, without_column_style, without_row_style};

use crate::Grid;
use ic_cells::{ColumnProps, RowProps, column_width, row_height};
use ic_laws::OutOfMemory;

impl Grid {
    /// What is set for a row. Nothing where nothing was.
    fn row_props(&self, row: i32) -> RowProps
        ensures { result ≡ row_at self.now.rows row }
    {
        match self.rows.get(row) {
            Some(props) => *props,
            None => RowProps {
                height: None,
                hidden: false,
                style: None,
            },
        }
    }

    /// Puts what is set for a row.
    fn put_row(&mut self, row: i32, props: RowProps) -> Result<(), OutOfMemory>
        ensures ok { OnOk result (self.new
            ≡ record self.old { rows = finite.insert self.old.rows row props }) }
        ensures err { OnErr result (self.new ≡ self.old) }
    {
        self.rows.insert(row, props)?;
        Ok(())
    }

    /// The height of a row in hundredths: the default one where none was set.
    pub fn row_height(&self, row: i32) -> u32
        ensures { result ≡ height_of (finite.get self.now.rows row) }
    {
        row_height(self.rows.get(row))
    }

    /// Whether a row is hidden.
    pub fn is_row_hidden(&self, row: i32) -> bool
        ensures { result ≡ (row_at self.now.rows row).hidden }
    {
        self.row_props(row).hidden
    }

    /// The number of the style that was set for a row. None exactly where none was.
    pub fn row_style(&self, row: i32) -> Option<usize>
        ensures { result ≡ option_and_then (λ props. props.style) (finite.get self.now.rows row) }
    {
        match self.rows.get(row) {
            Some(props) => props.style,
            None => None,
        }
    }

    /// Gives a row a height, in hundredths. Only memory can be missing, and then nothing has changed.
    pub fn set_row_height(&mut self, row: i32, height: u32) -> Result<(), OutOfMemory>
        ensures ok { OnOk result (self.new
            ≡ record self.old { rows = with_row_height row height self.old.rows }) }
        ensures err { OnErr result (self.new ≡ self.old) }
    {
        let mut props = self.row_props(row);
        props.height = Some(height);
        self.put_row(row, props)
    }

    /// Hides a row, or shows it. Only memory can be missing, and then nothing has changed.
    pub fn set_row_hidden(&mut self, row: i32, hidden: bool) -> Result<(), OutOfMemory>
        ensures ok { OnOk result (self.new
            ≡ record self.old { rows = with_row_hidden row hidden self.old.rows }) }
        ensures err { OnErr result (self.new ≡ self.old) }
    {
        let mut props = self.row_props(row);
        props.hidden = hidden;
        self.put_row(row, props)
    }

    /// Gives a row the style with this number. Only memory can be missing, and then nothing has changed.
    pub fn set_row_style(&mut self, row: i32, style: usize) -> Result<(), OutOfMemory>
        ensures ok { OnOk result (self.new
            ≡ record self.old { rows = with_row_style row (Some style) self.old.rows }) }
        ensures err { OnErr result (self.new ≡ self.old) }
    {
        let mut props = self.row_props(row);
        props.style = Some(style);
        self.put_row(row, props)
    }

    /// What is set for a row. None exactly where nothing was.
    fn row_set(&self, row: i32) -> Option<RowProps>
        ensures { result ≡ finite.get self.now.rows row }
    {
        self.rows.get(row).copied()
    }

    /// Puts what is set for a row where something is. No memory is taken.
    fn replace_row(&mut self, row: i32, props: RowProps)
        requires { IsSome (finite.get self.old.rows row) }
        ensures { self.new
            ≡ record self.old { rows = finite.insert self.old.rows row props } }
    {
        match self.rows.insert(row, props) {
            Ok(_) => {}
            Err(_) => {}
        }
    }

    /// Takes the style of a row away, and leaves what else is set for it. No memory is taken.
    pub fn delete_row_style(&mut self, row: i32)
        ensures { self.new
            ≡ record self.old { rows = without_row_style row self.old.rows } }
    {
        if let Some(mut props) = self.row_set(row) {
            props.style = None;
            self.replace_row(row, props);
        }
    }
}

impl Grid {
    /// What is set for a column. Nothing where nothing was.
    fn column_props(&self, column: i32) -> ColumnProps
        ensures { result ≡ column_at self.now.columns column }
    {
        match self.columns.get(column) {
            Some(props) => *props,
            None => ColumnProps {
                width: None,
                hidden: false,
                style: None,
            },
        }
    }

    /// Puts what is set for a column.
    fn put_column(&mut self, column: i32, props: ColumnProps) -> Result<(), OutOfMemory>
        ensures ok { OnOk result (self.new
            ≡ record self.old { columns = finite.insert self.old.columns column props }) }
        ensures err { OnErr result (self.new ≡ self.old) }
    {
        self.columns.insert(column, props)?;
        Ok(())
    }

    /// The width of a column in hundredths: the default one where none was set.
    pub fn column_width(&self, column: i32) -> u32
        ensures { result ≡ width_of (finite.get self.now.columns column) }
    {
        column_width(self.columns.get(column))
    }

    /// Whether a column is hidden.
    pub fn is_column_hidden(&self, column: i32) -> bool
        ensures { result ≡ (column_at self.now.columns column).hidden }
    {
        self.column_props(column).hidden
    }

    /// The number of the style that was set for a column. None exactly where none was.
    pub fn column_style(&self, column: i32) -> Option<usize>
        ensures { result
            ≡ option_and_then (λ props. props.style) (finite.get self.now.columns column) }
    {
        match self.columns.get(column) {
            Some(props) => props.style,
            None => None,
        }
    }

    /// Gives a column a width, in hundredths. Only memory can be missing, and then nothing has changed.
    pub fn set_column_width(&mut self, column: i32, width: u32) -> Result<(), OutOfMemory>
        ensures ok { OnOk result (self.new
            ≡ record self.old { columns = with_column_width column width self.old.columns }) }
        ensures err { OnErr result (self.new ≡ self.old) }
    {
        let mut props = self.column_props(column);
        props.width = Some(width);
        self.put_column(column, props)
    }

    /// Hides a column, or shows it. Only memory can be missing, and then nothing has changed.
    pub fn set_column_hidden(&mut self, column: i32, hidden: bool) -> Result<(), OutOfMemory>
        ensures ok { OnOk result (self.new
            ≡ record self.old { columns = with_column_hidden column hidden self.old.columns }) }
        ensures err { OnErr result (self.new ≡ self.old) }
    {
        let mut props = self.column_props(column);
        props.hidden = hidden;
        self.put_column(column, props)
    }

    /// Gives a column the style with this number. Only memory can be missing, and then nothing has changed.
    pub fn set_column_style(&mut self, column: i32, style: usize) -> Result<(), OutOfMemory>
        ensures ok { OnOk result (self.new
            ≡ record self.old {
              columns = with_column_style column (Some style) self.old.columns;
            }) }
        ensures err { OnErr result (self.new ≡ self.old) }
    {
        let mut props = self.column_props(column);
        props.style = Some(style);
        self.put_column(column, props)
    }

    /// What is set for a column. None exactly where nothing was.
    fn column_set(&self, column: i32) -> Option<ColumnProps>
        ensures { result ≡ finite.get self.now.columns column }
    {
        self.columns.get(column).copied()
    }

    /// Puts what is set for a column where something is. No memory is taken.
    fn replace_column(&mut self, column: i32, props: ColumnProps)
        requires { IsSome (finite.get self.old.columns column) }
        ensures { self.new
            ≡ record self.old { columns = finite.insert self.old.columns column props } }
    {
        match self.columns.insert(column, props) {
            Ok(_) => {}
            Err(_) => {}
        }
    }

    /// Takes the style of a column away, and leaves what else is set for it. No memory is taken.
    pub fn delete_column_style(&mut self, column: i32)
        ensures { self.new
            ≡ record self.old { columns = without_column_style column self.old.columns } }
    {
        if let Some(mut props) = self.column_set(column) {
            props.style = None;
            self.replace_column(column, props);
        }
    }
}

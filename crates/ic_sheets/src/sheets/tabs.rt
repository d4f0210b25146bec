//! The tabs of sheets.
ghost use Rattle.std.specs.Prelude.{◌<◌, length};
ghost use Rattle.std.specs.Fn.{FnOnceTakesAtMut};
ghost use Rattle.ic_sheets.specs.Sheet.{ChangesTab};
ghost use Rattle.ic_sheets.specs.declared.tab.Tab.{Tab};

use super::Sheets;
use crate::Tab;

impl Sheets {
    /// Changes the tab of the sheet at an index, from 0.
    pub fn change_tab<T, F: FnOnce(&mut Tab) -> T + Drop>(&mut self, index: usize, change: F) -> T
        requires within { index < length self.old }
        requires callable { (tab : Tab) → FnOnceTakesAtMut F.FnOnce change tab }
        ensures { ChangesTab F.FnOnce change index result self.old self.new }
    {
        let sheet = self.list[index].as_mut();
        change(&mut sheet.tab)
    }
}

use ic_cells::{SharedStrings, Styles};

/// What cells refer to by number, from 0.
pub struct Lists {
    pub styles: Styles,
    /// The texts that cells share.
    pub strings: SharedStrings,
}

impl Drop for Lists {
    fn drop(self) {
        let Self { styles, strings } = self;
        drop(styles);
        drop(strings);
    }
}

use ic_laws::{Items, Text};

/// The formats and separators of a place.
pub struct Locale {
    pub dates: Dates,
    pub numbers: NumbersProperties,
    pub currency: Currency,
}

impl Drop for Locale {
    fn drop(self) {
        let Self {
            dates,
            numbers,
            currency,
        } = self;
        drop(dates);
        drop(numbers);
        drop(currency);
    }
}

/// A locale with its id, as `fr`.
pub struct NamedLocale {
    pub id: Text,
    pub locale: Locale,
}

impl Drop for NamedLocale {
    fn drop(self) {
        let Self { id, locale } = self;
        drop(id);
        drop(locale);
    }
}

/// The currency of a locale: its ISO 4217 code and its symbol.
pub struct Currency {
    pub iso: Text,
    pub symbol: Text,
}

impl Drop for Currency {
    fn drop(self) {
        let Self { iso, symbol } = self;
        drop(iso);
        drop(symbol);
    }
}

/// How a locale writes numbers.
pub struct NumbersProperties {
    pub symbols: NumbersSymbols,
    pub decimal_formats: DecimalFormats,
    pub currency_formats: CurrencyFormats,
}

impl Drop for NumbersProperties {
    fn drop(self) {
        let Self {
            symbols,
            decimal_formats,
            currency_formats,
        } = self;
        drop(symbols);
        drop(decimal_formats);
        drop(currency_formats);
    }
}

/// The signs and separators in numbers.
pub struct NumbersSymbols {
    pub decimal: Text,
    pub group: Text,
    pub list: Text,
    pub percent_sign: Text,
    pub plus_sign: Text,
    pub minus_sign: Text,
    pub approximately_sign: Text,
    pub exponential: Text,
    pub superscripting_exponent: Text,
    pub per_mille: Text,
    pub infinity: Text,
    pub nan: Text,
    pub time_separator: Text,
}

impl Drop for NumbersSymbols {
    fn drop(self) {
        let Self {
            decimal,
            group,
            list,
            percent_sign,
            plus_sign,
            minus_sign,
            approximately_sign,
            exponential,
            superscripting_exponent,
            per_mille,
            infinity,
            nan,
            time_separator,
        } = self;
        drop(decimal);
        drop(group);
        drop(list);
        drop(percent_sign);
        drop(plus_sign);
        drop(minus_sign);
        drop(approximately_sign);
        drop(exponential);
        drop(superscripting_exponent);
        drop(per_mille);
        drop(infinity);
        drop(nan);
        drop(time_separator);
    }
}

/// The format codes of plain numbers.
pub struct DecimalFormats {
    pub standard: Text,
}

impl Drop for DecimalFormats {
    fn drop(self) {
        let Self { standard } = self;
        drop(standard);
    }
}

/// The format codes of amounts of money; `¤` stands for the symbol.
pub struct CurrencyFormats {
    pub standard: Text,
    pub standard_alpha_next_to_number: Option<Text>,
    pub standard_no_currency: Text,
    pub accounting: Text,
    pub accounting_alpha_next_to_number: Option<Text>,
    pub accounting_no_currency: Text,
}

impl Drop for CurrencyFormats {
    fn drop(self) {
        let Self {
            standard,
            standard_alpha_next_to_number,
            standard_no_currency,
            accounting,
            accounting_alpha_next_to_number,
            accounting_no_currency,
        } = self;
        drop(standard);
        drop(standard_alpha_next_to_number);
        drop(standard_no_currency);
        drop(accounting);
        drop(accounting_alpha_next_to_number);
        drop(accounting_no_currency);
    }
}

/// The names of days and months, and the format codes of dates and times.
pub struct Dates {
    pub day_names: Items<Text>,
    pub day_names_short: Items<Text>,
    pub months: Items<Text>,
    pub months_short: Items<Text>,
    pub months_letter: Items<Text>,
    pub date_formats: DateFormats,
    pub time_formats: DateFormats,
    pub date_time_formats: DateFormats,
}

impl Drop for Dates {
    fn drop(self) {
        let Self {
            day_names,
            day_names_short,
            months,
            months_short,
            months_letter,
            date_formats,
            time_formats,
            date_time_formats,
        } = self;
        drop(day_names);
        drop(day_names_short);
        drop(months);
        drop(months_short);
        drop(months_letter);
        drop(date_formats);
        drop(time_formats);
        drop(date_time_formats);
    }
}

/// The format codes of dates, by length.
pub struct DateFormats {
    pub full: Text,
    pub long: Text,
    pub medium: Text,
    pub short: Text,
}

impl Drop for DateFormats {
    fn drop(self) {
        let Self {
            full,
            long,
            medium,
            short,
        } = self;
        drop(full);
        drop(long);
        drop(medium);
        drop(short);
    }
}

/// The format codes of times, by length.
pub struct TimeFormats {
    pub full: Text,
    pub long: Text,
    pub medium: Text,
    pub short: Text,
}

impl Drop for TimeFormats {
    fn drop(self) {
        let Self {
            full,
            long,
            medium,
            short,
        } = self;
        drop(full);
        drop(long);
        drop(medium);
        drop(short);
    }
}

// What a text of lines promises, whatever its form: its two tables, of the columns of a line and of the fields of the head. The
// definitions are in specs/.
#![tactic(auto)]

ghost use Rattle.std.specs.Prelude.{◌≡◌, ◌+◌, ◌≤◌, ◌<◌, true, length};
ghost use Rattle.text_rules.specs.Columns.{column_start, line_width, line_pitch, is_text, taken_before, taken_pitch, used_by, column_form};
ghost use Rattle.text_rules.specs.Well.{columns_well, fields_well, most_line};
ghost use Rattle.text_rules.specs.Tables.{fields_of, line_form, column_at};

use digits::Form;
use std::marker::Model;

// When a column is used: always, by that column of the flag table, or for text.
#[derive(Clone, Copy)]
pub enum Use {
    Always,
    // A place and no `flags::Column`: the definitions take any place (`entry`), and the enum would ask more.
    ByFlag(usize),
    Text,
}

impl Use {
    #[tactic(auto, unfolding(crate::specs::Columns::is_text))]
    pub fn is_text(self) -> bool
        ensures { result ≡ is_text self }
    {
        matches!(self, Use::Text)
    }

    // Whether a column that is not for text has a number in a line with that flag.
    #[tactic(auto, unfolding(crate::specs::Columns::used_by))]
    pub fn has_number(self, flags: &flags::Table, flag: u64) -> bool
        ensures { result ≡ used_by flags.now flag self }
    {
        match self {
            Use::ByFlag(column) => flags::entry_in(flags, flag, column),
            Use::Always | Use::Text => true,
        }
    }
}

// A column of a component line. Its number has so many digits, or as many as there are, and so many decimals.
#[derive(Clone, Copy)]
pub struct Column {
    pub width: usize,
    pub digits: Option<usize>,
    pub decimals: usize,
    pub used: Use,
}

impl Column {
    // The form of its number, in a width or as long as it is.
    pub fn form(self, width: Option<usize>) -> Form
        ensures { result ≡ column_form self width }
    {
        Form {
            digits: self.digits,
            decimals: self.decimals,
            signed: false,
            width,
        }
    }
}

// How many bytes end a line: 0D 0A.
pub const LINE_END: usize = 2;

// What some columns take of a line: bytes with their bars, numbers, and bytes of text.
#[derive(Clone, Copy, Default)]
pub struct Taken {
    pub bytes: usize,
    pub numbers: usize,
    pub words: usize,
}

impl Taken {
    // How many bytes a line of them has with its end.
    pub fn pitch(self) -> usize
        requires { self.bytes ≤ most_line }
        ensures { result ≡ taken_pitch self }
    {
        self.bytes + LINE_END
    }
}

// The columns of a component line, in their order, where they are well made.
#[derive(Drop)]
pub struct Columns<'a> {
    all: &'a [Column],
}

impl<'a> Model for Columns<'a> {
    ghost use Rattle.std.specs.Prelude.{◌≡◌, true, List};
    ghost use Rattle.text_rules.specs.declared.Column.{Column};

    ghost Value = { List Column };

    ghost use Rattle.text_rules.specs.Well.{columns_well};

    ghost view = { λ c. c.all.now };

    ghost invariant = { λ c. columns_well c.all.now ≡ true };
}

impl<'a> Columns<'a> {
    pub fn new(table: &'a [Column]) -> Self
        requires { columns_well table.now ≡ true }
        ensures { result ≡ table.now }
    {
        Columns { all: table }
    }

    // Each of them.
    pub fn table(&self) -> &[Column]
        ensures value { result.now ≡ self.now }
        ensures well { columns_well result.now ≡ true }
    {
        self.all
    }

    // What the columns before column k take with column k, from what those before it take.
    #[tactic(auto, using(crate::proofs::Placed::past_low, crate::proofs::Placed::past_text, crate::proofs::Placed::past_number))]
    pub fn past(&self, k: usize, taken: Taken) -> Taken
        requires { (k < length self.now) × (taken ≡ taken_before self.now k) }
        ensures { result ≡ taken_before self.now (k + 1) }
    {
        let column = self.table()[k];
        let bytes = taken.bytes + (column.width + 1);
        if column.used.is_text() {
            Taken {
                bytes,
                words: taken.words + column.width,
                ..taken
            }
        } else {
            Taken {
                bytes,
                numbers: taken.numbers + 1,
                ..taken
            }
        }
    }

    // What the columns before column k take.
    #[tactic(auto, using(crate::proofs::Placed::before_first))]
    pub fn taken_before(&self, k: usize) -> Taken
        requires { k ≤ length self.now }
        ensures { result ≡ taken_before self.now k }
    {
        // By `for`: `past` asks that what is taken so far is right; with `fold` that is a clause and a proof of each turn, and no plainer.
        let mut taken = Taken::default();
        for i in 0..k {
            taken = self.past(i, taken);
        }
        taken
    }

    // What a whole line takes.
    #[tactic(auto, using(crate::proofs::Placed::whole_low))]
    pub fn whole(&self) -> Taken
        ensures value { result ≡ taken_before self.now (length self.now) }
        ensures most { result.bytes ≤ most_line }
    {
        self.taken_before(self.table().len())
    }

    // Where column k starts.
    #[tactic(auto, using(crate::proofs::Tables::start_line), unfolding(crate::specs::Columns::taken_before))]
    pub fn start(&self, k: usize) -> usize
        requires { k ≤ length self.now }
        ensures value { result ≡ column_start self.now k }
        ensures within { result ≤ line_width self.now }
    {
        self.taken_before(k).bytes
    }

    // How many bytes a line has.
    #[tactic(auto, using(crate::proofs::Well::line_short), unfolding(crate::specs::Columns::line_width))]
    pub fn width(&self) -> usize
        ensures value { result ≡ line_width self.now }
        ensures most { result ≤ most_line }
    {
        self.start(self.table().len())
    }

    // How many bytes a line has with its end.
    #[tactic(auto, using(crate::proofs::Placed::whole_pitch))]
    pub fn pitch(&self) -> usize
        ensures { result ≡ line_pitch self.now }
    {
        self.whole().pitch()
    }
}

// A form as far as its component lines go: their columns, which of them has the flag, and the flag table.
#[derive(Drop)]
pub struct LineForm<'a> {
    columns: Columns<'a>,
    flag_at: usize,
    flags: &'a flags::Table,
}

impl<'a> Model for LineForm<'a> {
    ghost use Rattle.std.specs.Prelude.{◌<◌, length};
    ghost use Rattle.text_rules.specs.Tables.{TextForm, line_form};

    ghost Value = { TextForm };

    ghost view = { λ f. line_form f.columns f.flag_at f.flags.now };

    ghost invariant = { λ f. f.flag_at < length f.columns };
}

impl<'a> LineForm<'a> {
    pub fn new(columns: &'a [Column], flag_at: usize, flags: &'a flags::Table) -> Self
        requires { (columns_well columns.now ≡ true) × (flag_at < length columns.now) }
        ensures { result ≡ line_form columns.now flag_at flags.now }
    {
        LineForm {
            columns: Columns::new(columns),
            flag_at,
            flags,
        }
    }

    pub fn columns(&self) -> &Columns<'a>
        ensures value { result.now ≡ self.now.columns }
        ensures well { columns_well self.now.columns ≡ true }
    {
        let columns = &self.columns;
        // This borrow shows what the columns hold, which `well` hands on.
        let _ = &columns.all;
        columns
    }

    #[tactic(auto, unfolding(crate::specs::Tables::column_at))]
    pub fn column(&self, k: usize) -> Column
        requires { k < length self.now.columns }
        ensures { result ≡ column_at self.now.columns k }
    {
        self.columns.table()[k]
    }

    pub fn flags(&self) -> &flags::Table
        ensures { result.now ≡ self.now.flags }
    {
        self.flags
    }

    // What the columns before the flag's take.
    pub fn before_flag(&self) -> Taken
        ensures value { result ≡ taken_before self.now.columns self.now.flag_at }
        ensures within { self.now.flag_at < length self.now.columns }
    {
        let flag_at = self.flag_at;
        self.columns.taken_before(flag_at)
    }
}

// What more than its form a field's value has to be: nothing, a date, or one of 0 and 1.
#[derive(Clone, Copy, PartialEq, Eq)]
pub enum ValueKind {
    Any,
    Date,
    ZeroOrOne,
}

// A field of the head: its name, the form of its number, and its kind.
#[derive(Clone, Copy)]
pub struct Field<'a> {
    pub name: &'a [u8],
    pub form: Form,
    pub kind: ValueKind,
}

// The fields of the head, in their order, where they are well made.
#[derive(Drop)]
pub struct Fields<'a> {
    table: &'a [Field<'a>],
}

impl<'a> Model for Fields<'a> {
    ghost use Rattle.std.specs.Prelude.{◌≡◌, true, List};
    ghost use Rattle.text_rules.specs.Tables.{Field, fields_of};

    ghost Value = { List Field };

    ghost use Rattle.text_rules.specs.Well.{fields_well};

    ghost view = { λ f. fields_of f.table.now };

    ghost invariant = { λ f. fields_well (fields_of f.table.now) ≡ true };
}

impl<'a> Fields<'a> {
    pub fn new(table: &'a [Field<'a>]) -> Self
        requires { fields_well (fields_of table.now) ≡ true }
        ensures { result ≡ fields_of table.now }
    {
        Fields { table }
    }

    // Each of them.
    pub fn table(&self) -> &[Field<'a>]
        ensures value { fields_of result.now ≡ self.now }
        ensures well { fields_well self.now ≡ true }
    {
        self.table
    }
}

// How many fields there is room for: figures stand in a fixed array, since the library has no heap. No const parameter: it would stand
// in each function that takes fields or figures.
pub const MOST_FIELDS: usize = 24;

// How many letters the first line has at most.
pub const MOST_LETTERS: usize = 8;

// What stands before those letters and behind them, the line before the component lines, and the last line.
pub const OPENING: &[u8] = b"[ETF";

pub const CLOSING: &[u8] = b"]";

pub const TAG: &[u8] = b"TAGTAG";

pub const END: &[u8] = b"ENDENDEND";

// Where the letters start.
pub const LETTERS_START: usize = OPENING.len();

// How many bytes these lines take with their ends, the first beside its letters.
pub const OPENING_REST: usize = OPENING.len() + CLOSING.len() + LINE_END;

pub const TAG_SIZE: usize = TAG.len() + LINE_END;

pub const END_SIZE: usize = END.len() + LINE_END;

// What stands behind each column.
pub const BAR: u8 = b'|';

// What the list text promises: the types of a list and its answers, and the tables of its form. The definitions are in specs/.
#![tactic(auto)]

ghost use Rattle.std.specs.Prelude.{◌≡◌, get_or};
ghost use Rattle.digits.specs.Digits.{plain};
ghost use Rattle.list_rules.specs.Fields.{blank_fields};
ghost use Rattle.list_rules.specs.Shanghai.{shanghai_fields, shanghai_columns, shanghai_lines};
ghost use Rattle.list_rules.specs.Places.{column_place, field_place};

use digits::{Figure, Form};
use layout::Fund;
use rules::Refusal;
use text_rules::{Column, Columns, Field, Fields, LineForm, MOST_FIELDS, Use, ValueKind};
use units::Rate;

// The fields of a list but its components, its names and the letters of its first line.
#[derive(Clone, Copy)]
pub struct ListFields {
    pub fund: Fund,
    // 0 or 1, as any number: it comes from a run that crosses from C, and refusal 2 tests it.
    pub publish: u64,
    // Dates as year, month and day in eight digits.
    pub trading_day: u64,
    pub pre_trading_day: u64,
    // In hundredths of a yuan.
    pub cash_component: i64,
    pub nav_per_cu: u64,
    // In ten-thousandths of a yuan.
    pub nav: u64,
    pub count: usize,
}

// The fields where there are none. No derive: of the limits it says each by itself, and not that all are the definitions' blank fields.
impl Default for ListFields {
    ghost is_default = { λ l. l ≡ blank_fields };

    fn default() -> ListFields {
        let fund = Fund {
            first_code: 0,
            basket_size: 0,
            max_cash_ratio: Rate(0),
            switch: 0,
            estimated_cash: 0,
            limits: [0; layout::LIMITS],
        };
        ListFields {
            fund,
            publish: 0,
            trading_day: 0,
            pre_trading_day: 0,
            cash_component: 0,
            nav_per_cu: 0,
            nav: 0,
            count: 0,
        }
    }
}

// What reading hands back: the fields, and where the component lines start.
#[derive(Clone, Copy)]
pub struct ListRead {
    pub fields: ListFields,
    pub first_row: usize,
}

// Where the component lines of a text start, and how many there are. No slice: the start is handed back to the caller, and Recordnum is
// compared with the count.
#[derive(Clone, Copy)]
pub struct Rows {
    pub start: usize,
    pub count: usize,
}

// A list to be written: its fields, its run of components, its names, one behind the other, and the letters of its first line.
#[derive(Clone, Copy)]
pub struct Listing<'a> {
    pub fields: ListFields,
    // Components and names flat, as they cross from C.
    pub run: &'a [u64],
    pub names: &'a [u8],
    pub letters: &'a [u8],
}

// A part of a text: where it starts, and how many bytes it has. Empty where there is none, and no Option: it crosses to C as these two
// numbers.
#[derive(Clone, Copy, Default)]
pub struct TextPart {
    pub place: usize,
    pub length: usize,
}

// The columns of a component line, in their order.
#[derive(Clone, Copy, PartialEq, Eq, Debug)]
pub enum ListColumn {
    Code,
    Name,
    Quantity,
    Flag,
    Premium,
    Discount,
    Amount,
}

impl ListColumn {
    // Its place. No `From`: as a number it is a place alone.
    pub fn place(self) -> usize
        ensures { result ≡ column_place self }
    {
        self as usize
    }
}

const COLUMNS: &[Column] = &[
    // Code.
    Column {
        width: 6,
        digits: Some(6),
        decimals: 0,
        used: Use::Always,
    },
    // Name.
    Column {
        width: NAME_WIDTH,
        digits: None,
        decimals: 0,
        used: Use::Text,
    },
    // Quantity.
    Column {
        width: 8,
        digits: None,
        decimals: 0,
        used: Use::Always,
    },
    // Flag.
    Column {
        width: 1,
        digits: Some(1),
        decimals: 0,
        used: Use::Always,
    },
    // Premium.
    Column {
        width: 7,
        digits: None,
        decimals: 5,
        used: Use::ByFlag(flags::Column::RateUsed as usize),
    },
    // Discount.
    Column {
        width: 7,
        digits: None,
        decimals: 5,
        used: Use::ByFlag(flags::Column::RateUsed as usize),
    },
    // Amount.
    Column {
        width: 12,
        digits: None,
        decimals: 3,
        used: Use::ByFlag(flags::Column::AmountUsed as usize),
    },
];

// How many bytes a component's name has.
pub const NAME_WIDTH: usize = 8;

// The fields of the head, in their order; the limits stand last.
#[derive(Clone, Copy, PartialEq, Eq, Debug)]
pub enum ListField {
    CreationCode,
    BasketSize,
    CashRatio,
    Publish,
    Switch,
    Count,
    EstimatedCash,
    TradingDay,
    PreTradingDay,
    CashComponent,
    BasketValue,
    UnitValue,
    FirstLimit,
}

impl ListField {
    // Its place. No `From`: as a number it is a place alone.
    pub fn place(self) -> usize
        ensures { result ≡ field_place self }
    {
        self as usize
    }

    // Its figure, among those of the head.
    pub fn of(self, figures: &[Figure; MOST_FIELDS]) -> Figure
        ensures { result ≡ get_or figures.now (field_place self) (plain 0) }
    {
        figures[self.place()]
    }
}

// Their forms: a whole number, a code of six digits, a date, and with decimals a ratio, a unit's value and money.
const WHOLE: Form = Form {
    digits: None,
    decimals: 0,
    signed: false,
    width: None,
};

const CODE: Form = Form {
    digits: Some(6),
    ..WHOLE
};

const DATE: Form = Form {
    digits: Some(8),
    ..WHOLE
};

const RATIO: Form = Form {
    decimals: 5,
    ..WHOLE
};

const UNIT_MONEY: Form = Form {
    decimals: 4,
    ..WHOLE
};

const MONEY: Form = Form {
    decimals: 2,
    ..WHOLE
};

const SIGNED_MONEY: Form = Form {
    signed: true,
    ..MONEY
};

const FIELDS: &[Field<'static>] = &[
    Field {
        name: b"Fundid1",
        form: CODE,
        kind: ValueKind::Any,
    },
    Field {
        name: b"CreationRedemptionUnit",
        form: WHOLE,
        kind: ValueKind::Any,
    },
    Field {
        name: b"MaxCashRatio",
        form: RATIO,
        kind: ValueKind::Any,
    },
    Field {
        name: b"Publish",
        form: WHOLE,
        kind: ValueKind::ZeroOrOne,
    },
    Field {
        name: b"CreationRedemption",
        form: WHOLE,
        kind: ValueKind::Any,
    },
    Field {
        name: b"Recordnum",
        form: WHOLE,
        kind: ValueKind::Any,
    },
    Field {
        name: b"EstimateCashComponent",
        form: SIGNED_MONEY,
        kind: ValueKind::Any,
    },
    Field {
        name: b"TradingDay",
        form: DATE,
        kind: ValueKind::Date,
    },
    Field {
        name: b"PreTradingDay",
        form: DATE,
        kind: ValueKind::Date,
    },
    Field {
        name: b"CashComponent",
        form: SIGNED_MONEY,
        kind: ValueKind::Any,
    },
    Field {
        name: b"NAVperCU",
        form: MONEY,
        kind: ValueKind::Any,
    },
    Field {
        name: b"NAV",
        form: UNIT_MONEY,
        kind: ValueKind::Any,
    },
    Field {
        name: b"CreationLimit",
        form: WHOLE,
        kind: ValueKind::Any,
    },
    Field {
        name: b"RedemptionLimit",
        form: WHOLE,
        kind: ValueKind::Any,
    },
    Field {
        name: b"CreationLimitPerUser",
        form: WHOLE,
        kind: ValueKind::Any,
    },
    Field {
        name: b"RedemptionLimitPerUser",
        form: WHOLE,
        kind: ValueKind::Any,
    },
    Field {
        name: b"NetCreationLimit",
        form: WHOLE,
        kind: ValueKind::Any,
    },
    Field {
        name: b"NetRedemptionLimit",
        form: WHOLE,
        kind: ValueKind::Any,
    },
    Field {
        name: b"NetCreationLimitPerUser",
        form: WHOLE,
        kind: ValueKind::Any,
    },
    Field {
        name: b"NetRedemptionLimitPerUser",
        form: WHOLE,
        kind: ValueKind::Any,
    },
];

// The columns of a component line, which stand in the same places under every flag table.
#[tactic(auto, using(crate::proofs::Lent::shanghai_columns_well), unfolding(crate::specs::Shanghai::shanghai_columns))]
pub fn columns() -> Columns<'static>
    ensures { result ≡ shanghai_columns }
{
    Columns::new(COLUMNS)
}

// The form as far as its component lines go, under a flag table.
#[tactic(auto, using(crate::proofs::Lent::shanghai_columns_well), unfolding(crate::specs::Shanghai::shanghai_columns))]
pub fn line_form(table: &flags::Table) -> LineForm<'_>
    ensures { result ≡ shanghai_lines table.now }
{
    LineForm::new(COLUMNS, ListColumn::Flag.place(), table)
}

// The fields of the head.
pub fn field_table() -> Fields<'static>
    ensures { result ≡ shanghai_fields }
{
    Fields::new(FIELDS)
}

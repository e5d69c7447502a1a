#![tactic(auto)]
// The known columns of each file, as data.
ghost use Rattle.std.specs.Prelude.{◌≡◌, ◌<◌, ◌≤◌, map, IfSome};
ghost use Rattle.meaning.specs.Bytes.{value};
ghost use Rattle.meaning.specs.Columns.{schema, column_of, count_of};
ghost use Rattle.std.proofs.Props.{props};
ghost use Rattle.schema.specs.AllKnown.{AllKnown};
ghost use Rattle.schema.specs.Named.{counted, named_by};
ghost use Rattle.schema.specs.Shown.{shown};

use meaning::{Column, Form, Need};

// A known column: its name, and what it asks.
type Known = (&'static [u8], Column);

// Must be present, with a value on each line.
const NEEDED: Column = Column {
    must: true,
    need: Need::Always,
    ident: false,
    form: Form::Text,
};

// Must be present, and its value may be empty.
const PRESENT: Column = Column {
    need: Need::Never,
    ..NEEDED
};

// Known, may be absent.
const OPTIONAL: Column = Column {
    must: false,
    ..PRESENT
};

// The same for an id.
const NEEDED_ID: Column = Column {
    ident: true,
    ..NEEDED
};

const OPTIONAL_ID: Column = Column {
    ident: true,
    ..OPTIONAL
};

// .. of these forms and needs.
const ALL_BUT_INNER: Column = Column {
    need: Need::AllButInner,
    ..NEEDED
};

const ALL_BUT_PLACELESS_LATITUDE: Column = Column {
    need: Need::AllButPlaceless,
    form: Form::Latitude,
    ..NEEDED
};

const ALL_BUT_PLACELESS_LONGITUDE: Column = Column {
    need: Need::AllButPlaceless,
    form: Form::Longitude,
    ..NEEDED
};

const OPTIONAL_UP_TO_4: Column = Column {
    form: Form::Choice(4),
    ..OPTIONAL
};

const NEEDED_ROUTE_TYPE: Column = Column {
    form: Form::RouteType,
    ..NEEDED
};

const NEEDED_UP_TO_1: Column = Column {
    form: Form::Choice(1),
    ..NEEDED
};

const NEEDED_DATE: Column = Column {
    form: Form::Date,
    ..NEEDED
};

const OPTIONAL_ID_UP_TO_1: Column = Column {
    form: Form::Choice(1),
    ..OPTIONAL_ID
};

const OPTIONAL_UP_TO_2: Column = Column {
    form: Form::Choice(2),
    ..OPTIONAL
};

const PRESENT_TIME: Column = Column {
    form: Form::Time,
    ..PRESENT
};

const NEEDED_SEQUENCE: Column = Column {
    form: Form::Sequence,
    ..NEEDED
};

const OPTIONAL_UP_TO_3: Column = Column {
    form: Form::Choice(3),
    ..OPTIONAL
};

const OPTIONAL_UP_TO_1: Column = Column {
    form: Form::Choice(1),
    ..OPTIONAL
};

const NEEDED_EXCEPTION_TYPE: Column = Column {
    form: Form::ExceptionType,
    ..NEEDED
};

static STOPS: [Known; 6] = [
    (b"stop_id", NEEDED_ID), // the file's own id
    (b"stop_name", ALL_BUT_INNER),
    (b"stop_lat", ALL_BUT_PLACELESS_LATITUDE),
    (b"stop_lon", ALL_BUT_PLACELESS_LONGITUDE),
    (b"location_type", OPTIONAL_UP_TO_4),
    (b"parent_station", OPTIONAL_ID),
];

static ROUTES: [Known; 4] = [
    (b"route_id", NEEDED_ID), // the file's own id
    (b"route_type", NEEDED_ROUTE_TYPE),
    (b"route_short_name", OPTIONAL),
    (b"route_long_name", OPTIONAL),
];

static CALENDAR: [Known; 10] = [
    (b"service_id", NEEDED_ID), // the file's own id
    (b"monday", NEEDED_UP_TO_1),
    (b"tuesday", NEEDED_UP_TO_1),
    (b"wednesday", NEEDED_UP_TO_1),
    (b"thursday", NEEDED_UP_TO_1),
    (b"friday", NEEDED_UP_TO_1),
    (b"saturday", NEEDED_UP_TO_1),
    (b"sunday", NEEDED_UP_TO_1),
    (b"start_date", NEEDED_DATE),
    (b"end_date", NEEDED_DATE),
];

static TRIPS: [Known; 6] = [
    (b"route_id", NEEDED_ID),
    (b"service_id", NEEDED_ID),
    (b"trip_id", NEEDED_ID), // the file's own id
    (b"direction_id", OPTIONAL_ID_UP_TO_1),
    (b"wheelchair_accessible", OPTIONAL_UP_TO_2),
    (b"bikes_allowed", OPTIONAL_UP_TO_2),
];

static STOP_TIMES: [Known; 8] = [
    (b"trip_id", NEEDED_ID),
    (b"arrival_time", PRESENT_TIME),
    (b"departure_time", PRESENT_TIME),
    (b"stop_id", NEEDED_ID),
    (b"stop_sequence", NEEDED_SEQUENCE),
    (b"pickup_type", OPTIONAL_UP_TO_3),
    (b"drop_off_type", OPTIONAL_UP_TO_3),
    (b"timepoint", OPTIONAL_UP_TO_1),
];

static CALENDAR_DATES: [Known; 3] = [
    (b"service_id", NEEDED_ID),
    (b"date", NEEDED_DATE),
    (b"exception_type", NEEDED_EXCEPTION_TYPE),
];

// The known columns of file f, by its number, as the definition `schema` has them.
fn columns_of(f: usize) -> &'static [Known]
    requires { f < 7 }
    ensures { map shown result.now ≡ schema f }
{
    match f {
        1 => &STOPS,
        2 => &ROUTES,
        3 => &CALENDAR,
        4 => &TRIPS,
        5 => &STOP_TIMES,
        6 => &CALENDAR_DATES,
        _ => &[],
    }
}

// How many known columns a file has.
pub fn count(f: usize) -> usize
    requires { f < 7 }
    ensures { (result ≡ count_of f) × (result ≤ 10) }
{
    columns_of(f).len()
}

// What known column k of file f asks.
pub fn known(f: usize, k: usize) -> Column
    requires { (f < 7) × (k < 10) }
    ensures { result ≡ column_of f k }
{
    match columns_of(f).get(k) {
        Some((_, column)) => *column,
        None => OPTIONAL,
    }
}

// What the known columns of a file ask, each at its place: asked once a file, for all its lines.
#[derive(Clone, Copy)]
pub struct KnownColumns {
    pub file: usize,
    pub columns: [Column; 10],
    ghost in_range: { file < 7 },
    ghost known: { AllKnown file columns } by { Prim.hlevel props },
}

// What the known columns of file f ask.
pub fn all_known(f: usize) -> KnownColumns
    requires { f < 7 }
    ensures { result.file ≡ f }
{
    let columns = std::array::from_fn(|k| known(f, k));
    KnownColumns { file: f, columns }
}

// Which known column of file f the value of a raw field names, counted from 0.
pub fn named(f: usize, raw: &[u8]) -> Option<usize>
    requires { f < 7 }
    ensures { (counted result ≡ named_by f (value raw.now)) × IfSome result (λ k. k < 10) }
{
    columns_of(f)
        .iter()
        .position(|(name, _)| text::is_name(raw, name))
}

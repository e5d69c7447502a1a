#![tactic(auto)]
// The six tables as they are lent to a call.
ghost use Rattle.std.specs.Prelude.{◌≡◌, ◌≤◌, ◌-◌, [], get_or, map, length};
ghost use Rattle.lent.specs.Lent.{held};

// The tables of files 1 to 6.
#[derive(Drop)]
pub struct Tables<'a> {
    pub stops: &'a mut [i32],
    pub routes: &'a mut [i32],
    pub calendar: &'a mut [i32],
    pub trips: &'a mut [i32],
    pub stop_times: &'a mut [i32],
    pub dates: &'a mut [i32],
}

impl Tables<'_> {
    // The table of file f.
    pub fn table(&self, f: usize) -> &[i32]
        requires { (1 ≤ f) × (f ≤ 6) }
        ensures { result.now ≡ get_or (held self.now) (f - 1) [] }
    {
        match f {
            1 => self.stops,
            2 => self.routes,
            3 => self.calendar,
            4 => self.trips,
            5 => self.stop_times,
            _ => self.dates,
        }
    }

    // How long each is.
    pub fn lengths(&self) -> [usize; 6]
        ensures { result ≡ map length (held self.now) }
    {
        [
            self.stops.len(),
            self.routes.len(),
            self.calendar.len(),
            self.trips.len(),
            self.stop_times.len(),
            self.dates.len(),
        ]
    }
}

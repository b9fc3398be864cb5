// The interface of everything on which the modular group acts.
ghost use Rattle.std.specs.Prelude.{◌≡◌, Bool};
ghost use Rattle.modular.specs.Actions.{Laws};

// An action has records of its own, some of them points, a first record, and two steps. What a step makes of a record that
// is no point is left to the action. The four answers never decline, change nothing, and are the same when asked again.
pub trait Action {
    type Record: Copy;

    ghost point: { Self → Self.Record → Type 0 };

    ghost start: { Self → Self.Record };

    ghost step_t: { Self → Self.Record → Self.Record };

    ghost step_s: { Self → Self.Record → Self.Record };

    ghost agrees: { Self → Self.Record → Self.Record → Bool };

    ghost laws: { (a : Self) → Laws (point a) (start a) (step_t a) (step_s a) (agrees a) };

    // The first record.
    fn first(&self) -> Self::Record
        ensures { result ≡ start self.now };

    // The T step.
    fn t(&self, p: Self::Record) -> Self::Record
        ensures { result ≡ step_t self.now p };

    // The S step.
    fn s(&self, p: Self::Record) -> Self::Record
        ensures { result ≡ step_s self.now p };

    // Whether two records agree in every field.
    fn same(&self, p: Self::Record, q: Self::Record) -> bool
        ensures { result ≡ agrees self.now p q };
}

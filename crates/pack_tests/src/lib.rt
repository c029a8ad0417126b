// Tests of pack lines, the pack sheet and the stored form, at every limit and on both sides of it.
#![tactic(auto)]

#[cfg(test)]
mod tests {
    use pack::{PackLine, PackSheet, StoredPackLine};
    use std::process::Abort;

    const NAN: f64 = 0.0 / 0.0;

    const INFINITY: f64 = 1.0 / 0.0;

    // Each line is fit, or each is unfit, for a sheet that a fit Begin has opened.
    fn check_begun(rt: &impl Abort, lines: &[PackLine], fit: bool) {
        let sheet = PackSheet::of(&[PackLine::Begin(1000.0)]);
        for &line in lines {
            assert_eq!(rt; sheet.fits(line), fit, "{line:?}");
        }
    }

    #[test]
    fn fit_at_the_limits(rt: HostRuntime) {
        check_begun(
            &rt,
            &[
                PackLine::Begin(5e-324),
                PackLine::Begin(1_000_000_000.0),
                PackLine::Drain(10.0, 1),
                PackLine::Drain(200_000.0, 86_400),
                PackLine::Idle(1),
                PackLine::Idle(86_400),
            ],
            true,
        );
    }

    #[test]
    fn unfit_past_the_limits(rt: HostRuntime) {
        check_begun(
            &rt,
            &[
                PackLine::Begin(0.0),
                PackLine::Begin(-0.0),
                PackLine::Begin(1_000_000_000.000_000_1),
                PackLine::Drain(9.999_999_999_999_998, 1),
                PackLine::Drain(200_000.000_000_000_03, 1),
                PackLine::Drain(10.0, 0),
                PackLine::Drain(10.0, 86_401),
                PackLine::Idle(0),
                PackLine::Idle(86_401),
            ],
            false,
        );
    }

    #[test]
    fn unfit_floats(rt: HostRuntime) {
        check_begun(
            &rt,
            &[
                PackLine::Begin(NAN),
                PackLine::Begin(INFINITY),
                PackLine::Begin(-INFINITY),
                PackLine::Drain(NAN, 1),
                PackLine::Drain(INFINITY, 1),
                PackLine::Drain(-INFINITY, 1),
                PackLine::Drain(-0.0, 1),
            ],
            false,
        );
    }

    #[test]
    fn nothing_before_a_begin(rt: HostRuntime) {
        let sheet = PackSheet::of(&[PackLine::Drain(10.0, 1), PackLine::Idle(1)]);
        assert!(rt; sheet.fit() == 0 && sheet.unfit() == 2);
        assert!(rt; sheet.charge() == 0.0);
        assert!(rt; sheet.remaining().is_none());
    }

    // Each line has this stored form, and comes back from it.
    fn check_stored(rt: &impl Abort, pairs: &[(PackLine, StoredPackLine)]) {
        for (line, stored) in pairs {
            assert_eq!(rt; StoredPackLine::from(*line), *stored);
            assert_eq!(rt; StoredPackLine::from(PackLine::from(*stored)), *stored);
        }
    }

    #[test]
    fn stored_forms(rt: HostRuntime) {
        check_stored(
            &rt,
            &[
                (PackLine::Begin(0.0), StoredPackLine::Begin(0)),
                (
                    PackLine::Begin(-0.0),
                    StoredPackLine::Begin(0x8000_0000_0000_0000),
                ),
                (PackLine::Begin(5e-324), StoredPackLine::Begin(1)),
                (
                    PackLine::Begin(1_000_000_000.0),
                    StoredPackLine::Begin(0x41cd_cd65_0000_0000),
                ),
                (
                    PackLine::Begin(INFINITY),
                    StoredPackLine::Begin(0x7ff0_0000_0000_0000),
                ),
                (
                    PackLine::Begin(NAN),
                    StoredPackLine::Begin(0x7ff8_0000_0000_0000),
                ),
                (
                    PackLine::Drain(10.0, 86_400),
                    StoredPackLine::Drain(0x4024_0000_0000_0000, 86_400),
                ),
                (
                    PackLine::Drain(-INFINITY, 1),
                    StoredPackLine::Drain(0xfff0_0000_0000_0000, 1),
                ),
                (
                    PackLine::Drain(NAN, 7),
                    StoredPackLine::Drain(0x7ff8_0000_0000_0000, 7),
                ),
                (PackLine::Idle(86_401), StoredPackLine::Idle(86_401)),
            ],
        );
    }

    #[test]
    fn stored_lines_differ(rt: HostRuntime) {
        let zero = StoredPackLine::from(PackLine::Begin(0.0));
        assert_ne!(rt; zero, StoredPackLine::from(PackLine::Begin(-0.0)));
        assert_ne!(rt; zero, StoredPackLine::Drain(0, 0));
        assert_eq!(rt; zero, StoredPackLine::Begin(0));
    }
}

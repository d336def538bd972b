// The sky sheet by program: section 10's cases that are not theorems, and the worked examples of Meeus. A line for each case, in the
// order of the file `figures`: the 16 hexadecimal digits of each number of the answer, or `refused` and the number. `tools/skysheet` reads
// the lines, prints them with their names beside the published figures, and holds them to those.
#![tactic(auto)]

use atmos::Arcmin;
use edition::Edition;
use helpers::{angle, time};
use helpers_earth::Earth;
use list::Star;
use quantity::{Deg, EclPoint, EqPoint, GeographPoint, Rad, Refusal};
use std::io::Stdout;

const J2000: f64 = 2451545.0;

// ---- writing

fn number(out: Stdout, x: f64) {
    let bits = double::pattern(x);
    let _ = print!(out; "{bits:016x}");
}

fn next(out: Stdout, x: f64) {
    let _ = out.write_all(b" ");
    number(out, x);
}

fn end(out: Stdout) {
    let _ = out.write_all(b"\n");
}

fn line(out: Stdout, x: f64) {
    number(out, x);
    end(out);
}

fn refusal(out: Stdout, why: Refusal) {
    let _ = out.write_all(b"refused ");
    let _ = out.print(why.number() as u64);
}

// What an answer holds: its numbers, after one another.
trait Numbers {
    fn print(self, out: Stdout);
}

impl Numbers for f64 {
    fn print(self, out: Stdout) {
        number(out, self);
    }
}

impl Numbers for Rad {
    fn print(self, out: Stdout) {
        number(out, self.0);
    }
}

impl Numbers for Deg {
    fn print(self, out: Stdout) {
        number(out, self.0);
    }
}

impl Numbers for Arcmin {
    fn print(self, out: Stdout) {
        number(out, self.0);
    }
}

impl Numbers for (f64, f64) {
    fn print(self, out: Stdout) {
        number(out, self.0);
        next(out, self.1);
    }
}

impl Numbers for (f64, f64, f64) {
    fn print(self, out: Stdout) {
        number(out, self.0);
        next(out, self.1);
        next(out, self.2);
    }
}

impl Numbers for EqPoint {
    fn print(self, out: Stdout) {
        number(out, self.asc);
        next(out, self.dec);
    }
}

impl Numbers for EclPoint {
    fn print(self, out: Stdout) {
        number(out, self.long);
        next(out, self.lat);
    }
}

// An answer's line.
fn answer<T: Numbers>(out: Stdout, a: Result<T, Refusal>) {
    match a {
        Ok(x) => x.print(out),
        Err(why) => refusal(out, why),
    }
    end(out);
}

// ---- the cases

fn deg(x: f64) -> Rad {
    angle::radians(Deg(x))
}

fn limits(out: Stdout) {
    answer(out, time::julian_cent(3182045.0));
    answer(out, time::julian_cent(3182045.0000000005));
    answer(out, aberr::sol_aberr(0.0));
    answer(
        out,
        precess_ecl::precess_orb_elements(Rad(0.0), Rad(1.0), Rad(1.0), J2000, J2000),
    );
    answer(out, coords::az_frm_eq(Rad(1.0), Rad(1.57), Rad(0.5)));
    answer(
        out,
        coords::az_frm_eq(Rad(1.0), Rad(1.5700000000000003), Rad(0.5)),
    );
}

fn earth_and_ecliptic(out: Stdout) {
    answer(out, Earth::rho_sin_cos_phi(deg(33.35611111111111), 1706.0));
    answer(
        out,
        coords_ecl::ecl_frm_eq(deg(116.328942), deg(28.026183), deg(23.4392911)),
    );
    answer(
        out,
        coords_ecl::asc_frm_ecl(deg(113.21563), deg(6.68417), deg(23.4392911)),
    );
    answer(
        out,
        coords_ecl::dec_frm_ecl(deg(113.21563), deg(6.68417), deg(23.4392911)),
    );
}

fn horizon_and_galaxy(out: Stdout) {
    answer(
        out,
        coords::az_frm_eq(
            deg(64.352133),
            deg(-6.719891666666667),
            deg(38.92138888888889),
        ),
    );
    answer(
        out,
        coords::alt_frm_eq(
            deg(64.352133),
            deg(-6.719891666666667),
            deg(38.92138888888889),
        ),
    );
    answer(
        out,
        coords::hr_angl_frm_hz(deg(68.0337), deg(15.1249), deg(38.92138888888889)),
    );
    answer(
        out,
        coords::dec_frm_hz(
            Edition::Crate,
            deg(68.0337),
            deg(15.1249),
            deg(38.92138888888889),
        ),
    );
    answer(
        out,
        coords_gal::gal_long_frm_eq(deg(267.2489166666667), deg(-14.718944444444444)),
    );
    answer(
        out,
        coords_gal::gal_lat_frm_eq(deg(267.2489166666667), deg(-14.718944444444444)),
    );
}

// Venus at Boston: rise, culmination and set before interpolation, a line each.
fn venus_at_boston(out: Stdout) {
    let times = transit::rise_culm_set(
        EqPoint {
            asc: deg(41.73129).0,
            dec: deg(18.44092).0,
        },
        deg(177.74208),
        GeographPoint {
            long: deg(71.0833).0,
            lat: deg(42.3333).0,
        },
        deg(-0.5667),
    );
    match times {
        Ok((rise, culmination, set)) => {
            line(out, rise);
            line(out, culmination);
            line(out, set);
        }
        Err(why) => refusal(out, why),
    }
}

// The Sun at the horizon: its lower limb is seen at 0.5 degrees, its upper limb stands at 33.246 minutes of arc.
fn sun_at_the_horizon(out: Stdout) {
    answer(out, atmos::refrac_frm_apprnt_alt(Deg(0.5)));
    answer(out, atmos::sight_alt(Deg(0.5)));
    answer(out, atmos::refrac_frm_true_alt(Deg(0.5541)));
    answer(out, atmos::plan_alt(Deg(0.5541)));
}

// Polaris on a day: its place of J2000, 2h31m48.704s and 89d15'50.72", moved by its yearly rates.
fn polaris_at(day: f64) -> EqPoint {
    let years = (day - J2000) / 365.25;
    EqPoint {
        asc: deg((9108.704 + 0.19877 * years) / 240.0).0,
        dec: deg((321350.72 - 0.0152 * years) / 3600.0).0,
    }
}

fn polaris(out: Stdout, day: f64) {
    let place = polaris_at(day);
    answer(
        out,
        precess::precess_eq_coords(Edition::Crate, Rad(place.asc), Rad(place.dec), J2000, day),
    );
}

// A record of J2000 on a day, its rates in whole milliarcseconds a year.
fn moved(out: Stdout, asc: u32, dec: i32, asc_rate: i32, dec_rate: i32, day: f64) {
    let star = Star {
        number: 0,
        asc,
        dec,
        asc_rate,
        dec_rate,
    };
    let years = star_place::years_between(J2000, day);
    answer(
        out,
        precess::precess_eq_coords(
            Edition::Crate,
            star_place::asc_of(star, years),
            star_place::dec_of(star, years),
            J2000,
            day,
        ),
    );
}

// theta Persei, and Polaris on its three days.
fn moving_stars(out: Stdout) {
    moved(out, 147779790, 177222480, 514, -90, 2462088.69);
    moved(out, 136630560, 321350720, 2982, -15, 2415020.3135);
    moved(out, 136630560, 321350720, 2982, -15, 2469807.5);
    moved(out, 136630560, 321350720, 2982, -15, 2488070.0);
}

fn precessions(out: Stdout) {
    answer(
        out,
        precess::precess_eq_coords(
            Edition::Crate,
            deg(41.054063),
            deg(49.22775),
            J2000,
            2462088.69,
        ),
    );
    polaris(out, 2415020.3135);
    polaris(out, 2469807.5);
    polaris(out, 2488070.0);
    answer(
        out,
        precess_ecl::precess_ecl_coords(deg(149.48194), deg(1.76549), J2000, 1643074.5),
    );
}

// A place of J2000 on a day by one rotation, the second of two that go side by side.
fn rotated(out: Stdout, place: EqPoint, day: f64) {
    let toward = elementary::toward(place);
    let places = rotation::rotated_two(
        rotation::rotation_of(Edition::Crate, J2000, day),
        toward,
        toward,
    );
    let second = (places.second_asc, places.second_dec);
    answer(out, places.second_check.and(Ok(second)));
}

// theta Persei, and Polaris on its three days.
fn rotations(out: Stdout) {
    rotated(
        out,
        EqPoint {
            asc: deg(41.054063).0,
            dec: deg(49.22775).0,
        },
        2462088.69,
    );
    rotated(out, polaris_at(2415020.3135), 2415020.3135);
    rotated(out, polaris_at(2469807.5), 2469807.5);
    rotated(out, polaris_at(2488070.0), 2488070.0);
}

// The true obliquity on a day, from the mean one.
fn true_obliquity(mean: Rad, day: f64) -> Result<Rad, Refusal> {
    let (_, in_oblq) = nutation::nutation(day)?;
    Ok(chain::true_obliquity(mean, Rad(in_oblq)))
}

// The mean obliquity on a day, then the true one.
fn obliquities(out: Stdout, day: f64) {
    let mean = chain::mean_obliquity_on(day);
    line(out, mean.0);
    answer(out, true_obliquity(mean, day));
}

fn reductions(out: Stdout) {
    answer(out, nutation::nutation(2446895.5));
    obliquities(out, 2446895.5);
    answer(
        out,
        nutation::nutation_in_eq_coords(
            EqPoint {
                asc: deg(41.5472).0,
                dec: deg(49.3485).0,
            },
            deg(14.861 / 3600.0),
            deg(2.705 / 3600.0),
            deg(23.436),
        ),
    );
    answer(
        out,
        precess_ecl::precess_orb_elements(
            deg(47.122),
            deg(151.4486),
            deg(45.7481),
            2358042.5305,
            2433282.4235,
        ),
    );
    answer(out, aberr::sol_aberr(0.99766));
}

// The exercise of chapter 40.
fn exercise(out: Stdout, edition: Edition) {
    answer(
        out,
        parallax_ecl::topopcent_ecl_coords(
            edition,
            EclPoint {
                long: deg(181.77291666666667).0,
                lat: deg(2.2906111111111113).0,
            },
            deg(0.9910277777777778),
            GeographPoint {
                long: 0.0,
                lat: deg(50.0855).0,
            },
            0.0,
            deg(209.76886111111112),
            deg(23.466888888888889),
            deg(0.2709722222222222),
        ),
    );
}

fn parallaxes(out: Stdout) {
    answer(out, parallax::eq_hz_parallax(0.37276));
    answer(
        out,
        parallax::topocent_eq_coords(
            EqPoint {
                asc: deg(339.530208).0,
                dec: deg(-15.771083).0,
            },
            deg(23.592 / 3600.0),
            GeographPoint {
                long: deg(116.8625).0,
                lat: deg(33.35611111111111).0,
            },
            1706.0,
            deg(25.1875),
        ),
    );
    exercise(out, Edition::Crate);
}

// Example 13.b back from the azimuth and altitude that it gives, unrounded.
fn venus_back(edition: Edition) -> Result<Rad, Refusal> {
    let hour = deg(64.352133);
    let dec = deg(-6.719891666666667);
    let lat = deg(38.92138888888889);
    let az = coords::az_frm_eq(hour, dec, lat)?;
    let alt = coords::alt_frm_eq(hour, dec, lat)?;
    coords::dec_frm_hz(edition, az, alt, lat)
}

// Example 21.b back: from its second day, which is not J2000, to its first.
fn persei_back(out: Stdout, edition: Edition) {
    answer(
        out,
        precess::precess_eq_coords(edition, deg(41.547214), deg(49.348483), 2462088.69, J2000),
    );
}

// What the editions have otherwise, in either.
fn editions(out: Stdout) {
    answer(out, venus_back(Edition::Crate));
    answer(out, venus_back(Edition::Published));
    persei_back(out, Edition::Crate);
    persei_back(out, Edition::Published);
    exercise(out, Edition::Published);
}

// Sidereal time at Greenwich: 1987 April 10 at 0h, mean and apparent, and at 19h21m.
fn sidereal_times(out: Stdout) {
    answer(out, sidereal::mean_sidereal(2446895.5));
    answer(out, sidereal::apparent_sidereal(2446895.5));
    answer(out, sidereal::mean_sidereal(2446896.30625));
}

fn main(rt: HostRuntime) {
    let out = rt.stdout();
    limits(out);
    earth_and_ecliptic(out);
    horizon_and_galaxy(out);
    venus_at_boston(out);
    sun_at_the_horizon(out);
    precessions(out);
    moving_stars(out);
    rotations(out);
    reductions(out);
    parallaxes(out);
    editions(out);
    sidereal_times(out);
}

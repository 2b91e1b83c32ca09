// The named places of counts: each is its field's place in the list of document 01, from 0.
use fields::pages::{
    A0, A1, A2, ALPHA0, ALPHA1, ALPHA2, ALPHA3, BETA0, BETA1, BETA2, BETA3, DN,
    FUTURE_LEAP_SECONDS, LEAP_SECONDS, TEXT, TEXT_PAGE, TOT, WN_LSF, WN_OT,
};
use fields::subframe2::{
    ADOT, AF0, AF1, AF2, CIC, CIS, CRC, CRS, CUC, CUS, DA, DN0, DN0DOT, DOMEGADOT, ECC, HEALTH, I0,
    IDOT, ISCD, ISCP, ISF, ITOW, M0, OMEGA, OMEGA0, TGD, TOE, TOP, URAOC, URAOC1, URAOC2, URAOE,
    WN,
};
use show::expected;

pub(crate) fn of_subframe2() {
    expected(
        b"WN to IDOT stand at 0 to 16",
        [
            WN, ITOW, TOP, HEALTH, URAOE, TOE, DA, ADOT, DN0, DN0DOT, M0, ECC, OMEGA, OMEGA0, I0,
            DOMEGADOT, IDOT,
        ]
        .into_iter()
        .eq(0..17),
    );
    expected(
        b"CIS to ISF stand at 17 to 32",
        [
            CIS, CIC, CRS, CRC, CUS, CUC, URAOC, URAOC1, URAOC2, AF0, AF1, AF2, TGD, ISCP, ISCD,
            ISF,
        ]
        .into_iter()
        .eq(17..33),
    );
}

pub(crate) fn of_pages() {
    expected(
        b"A0 to BETA3 stand at 0 to 16",
        [
            A0,
            A1,
            A2,
            LEAP_SECONDS,
            TOT,
            WN_OT,
            WN_LSF,
            DN,
            FUTURE_LEAP_SECONDS,
            ALPHA0,
            ALPHA1,
            ALPHA2,
            ALPHA3,
            BETA0,
            BETA1,
            BETA2,
            BETA3,
        ]
        .into_iter()
        .eq(0..17),
    );
    expected(
        b"TEXT_PAGE and TEXT stand at 0 and 1",
        [TEXT_PAGE, TEXT].into_iter().eq(0..2),
    );
}

//! The segment tables of document 000, sections 2.4.1.3 and 2.4.2.2, and of document 003: rows of eight numbers, to be lent to the steps of a reading.

#![tactic(auto)]

ghost use Rattle.std.specs.Prelude.{◌≡◌};
ghost use Rattle.placing.specs.Tsdupd12B.{tsdupd_12b_table};
ghost use Rattle.placing.specs.Tables.{tables, lent_in};

use messages::{
    ADS, ALS, ASD, CNY, CON, DTI, ERI, FRQ, HDR, IFT, LNG, MES, MSD, MessageType, NME, ODI, ORG,
    PDT, POP, POR, PRD, RFR, RLS, SER, TCE, TFF, TIZ, TRF, UIH, UIT,
};
use placing::rows_between;

const M: u32 = 1;

const C: u32 = 0;
// A group's row has no tag of its own.
const NO_TAG: u32 = 0;

/// The rows of the types of D.04A, one table after the other.
/// A row is position, tag, status, greatest number, group, level, rows held, row of the group it stands in.
pub fn tables() -> [[u32; 8]; 104]
    ensures { result ≡ tables }
{
    [
        // SKDUPD
        [10, UIH, M, 1, 0, 0, 0, 0],
        [20, MSD, M, 1, 0, 0, 0, 0],
        [30, ORG, M, 1, 0, 0, 0, 0],
        [40, HDR, M, 1, 0, 0, 0, 0],
        [50, IFT, C, 1, 0, 0, 0, 0],
        [60, RFR, C, 9, 0, 0, 0, 0],
        [70, NO_TAG, C, 99, 1, 0, 3, 0],
        [80, ERI, M, 1, 1, 1, 0, 6],
        [90, RFR, C, 1, 1, 1, 0, 6],
        [100, IFT, C, 1, 1, 1, 0, 6],
        [110, NO_TAG, M, 99999, 2, 0, 43, 0],
        [120, PRD, M, 1, 2, 1, 0, 10],
        [130, PDT, C, 3, 2, 1, 0, 10],
        [140, IFT, C, 9, 2, 1, 0, 10],
        [150, TRF, C, 9, 2, 1, 0, 10],
        [160, ASD, C, 99, 2, 1, 0, 10],
        [170, MSD, C, 1, 2, 1, 0, 10],
        [175, RFR, C, 9, 2, 1, 0, 10],
        [180, NO_TAG, C, 99, 3, 1, 2, 10],
        [190, SER, M, 1, 3, 2, 0, 18],
        [200, ASD, C, 1, 3, 2, 0, 18],
        [210, NO_TAG, C, 999, 4, 1, 32, 10],
        [220, POP, M, 1, 4, 2, 0, 21],
        [230, PDT, C, 3, 4, 2, 0, 21],
        [240, IFT, C, 1, 4, 2, 0, 21],
        [250, TRF, C, 9, 4, 2, 0, 21],
        [260, ASD, C, 99, 4, 2, 0, 21],
        [270, FRQ, C, 9, 4, 2, 0, 21],
        [280, NO_TAG, C, 99, 5, 2, 2, 21],
        [290, SER, M, 1, 5, 3, 0, 28],
        [300, ASD, C, 1, 5, 3, 0, 28],
        [310, NO_TAG, C, 99, 6, 2, 2, 21],
        [320, DTI, M, 1, 6, 3, 0, 31],
        [330, IFT, C, 9, 6, 3, 0, 31],
        [340, NO_TAG, C, 999, 7, 2, 9, 21],
        [350, POR, M, 1, 7, 3, 0, 34],
        [360, MES, C, 1, 7, 3, 0, 34],
        [370, ASD, C, 9, 7, 3, 0, 34],
        [380, SER, C, 9, 7, 3, 0, 34],
        [390, TRF, C, 1, 7, 3, 0, 34],
        [400, NO_TAG, C, 99, 8, 3, 3, 34],
        [410, RFR, M, 1, 8, 4, 0, 40],
        [420, RLS, C, 1, 8, 4, 0, 40],
        [430, TCE, C, 9, 8, 4, 0, 40],
        [440, NO_TAG, C, 999, 9, 2, 9, 21],
        [450, ODI, M, 1, 9, 3, 0, 44],
        [460, PDT, C, 3, 9, 3, 0, 44],
        [470, IFT, C, 1, 9, 3, 0, 44],
        [480, TRF, C, 9, 9, 3, 0, 44],
        [490, TFF, C, 1, 9, 3, 0, 44],
        [500, ASD, C, 99, 9, 3, 0, 44],
        [510, NO_TAG, C, 99, 10, 3, 2, 44],
        [520, SER, M, 1, 10, 4, 0, 51],
        [530, ASD, C, 1, 10, 4, 0, 51],
        [540, UIT, M, 1, 0, 0, 0, 0],
        // TSDUPD
        [10, UIH, M, 1, 0, 0, 0, 0],
        [20, MSD, M, 1, 0, 0, 0, 0],
        [30, ORG, C, 1, 0, 0, 0, 0],
        [40, HDR, C, 1, 0, 0, 0, 0],
        [50, IFT, C, 9, 0, 0, 0, 0],
        [60, RFR, C, 1, 0, 0, 0, 0],
        [70, CNY, C, 1, 0, 0, 0, 0],
        [80, TIZ, C, 1, 0, 0, 0, 0],
        [90, LNG, C, 1, 0, 0, 0, 0],
        [100, NO_TAG, C, 99, 1, 0, 3, 0],
        [110, ERI, M, 1, 1, 1, 0, 9],
        [120, RFR, C, 1, 1, 1, 0, 9],
        [130, IFT, C, 1, 1, 1, 0, 9],
        [140, NO_TAG, C, 99999, 2, 0, 27, 0],
        [150, ALS, M, 1, 2, 1, 0, 13],
        [160, ADS, C, 1, 2, 1, 0, 13],
        [170, POP, C, 9, 2, 1, 0, 13],
        [180, CON, C, 1, 2, 1, 0, 13],
        [190, TRF, C, 1, 2, 1, 0, 13],
        [200, CNY, C, 1, 2, 1, 0, 13],
        [210, TIZ, C, 1, 2, 1, 0, 13],
        [220, LNG, C, 1, 2, 1, 0, 13],
        [230, SER, C, 1, 2, 1, 0, 13],
        [240, IFT, C, 9, 2, 1, 0, 13],
        [250, NO_TAG, C, 99, 3, 1, 2, 13],
        [260, ASD, M, 1, 3, 2, 0, 24],
        [270, CON, C, 1, 3, 2, 0, 24],
        [280, NO_TAG, C, 99, 4, 1, 5, 13],
        [290, PRD, M, 1, 4, 2, 0, 27],
        [300, SER, C, 1, 4, 2, 0, 27],
        [310, FRQ, C, 1, 4, 2, 0, 27],
        [320, IFT, C, 1, 4, 2, 0, 27],
        [330, POR, C, 1, 4, 2, 0, 27],
        [340, NO_TAG, C, 99, 5, 1, 7, 13],
        [350, RFR, M, 1, 5, 2, 0, 33],
        [360, MES, C, 1, 5, 2, 0, 33],
        [365, RLS, C, 1, 5, 2, 0, 33],
        [370, NO_TAG, C, 99, 6, 2, 3, 33],
        [380, PRD, M, 1, 6, 3, 0, 37],
        [390, POP, C, 1, 6, 3, 0, 37],
        [400, SER, C, 1, 6, 3, 0, 37],
        [410, NO_TAG, C, 99, 7, 0, 6, 0],
        [420, NME, M, 1, 7, 1, 0, 41],
        [430, ADS, C, 1, 7, 1, 0, 41],
        [440, CON, C, 1, 7, 1, 0, 41],
        [450, NO_TAG, C, 99, 8, 1, 2, 41],
        [460, RFR, M, 1, 8, 2, 0, 45],
        [470, RLS, C, 1, 8, 2, 0, 45],
        [480, UIT, M, 1, 0, 0, 0, 0],
    ]
}

/// The rows of TSDUPD of D.12B. They stand apart, so that a reading puts them on the stack only where a message is of that directory.
pub fn tsdupd_12b() -> [[u32; 8]; 49]
    ensures { result ≡ tsdupd_12b_table }
{
    [
        [10, UIH, M, 1, 0, 0, 0, 0],
        [20, MSD, M, 1, 0, 0, 0, 0],
        [30, ORG, C, 1, 0, 0, 0, 0],
        [40, HDR, C, 1, 0, 0, 0, 0],
        [50, IFT, C, 9, 0, 0, 0, 0],
        [60, RFR, C, 1, 0, 0, 0, 0],
        [70, CNY, C, 1, 0, 0, 0, 0],
        [80, TIZ, C, 1, 0, 0, 0, 0],
        [90, LNG, C, 1, 0, 0, 0, 0],
        [100, NO_TAG, C, 99, 1, 0, 3, 0],
        [110, ERI, M, 1, 1, 1, 0, 9],
        [120, RFR, C, 1, 1, 1, 0, 9],
        [130, IFT, C, 1, 1, 1, 0, 9],
        [140, NO_TAG, C, 99999, 2, 0, 27, 0],
        [150, ALS, M, 1, 2, 1, 0, 13],
        [160, ADS, C, 1, 2, 1, 0, 13],
        [170, POP, C, 9, 2, 1, 0, 13],
        [180, CON, C, 1, 2, 1, 0, 13],
        [190, TRF, C, 1, 2, 1, 0, 13],
        [200, CNY, C, 1, 2, 1, 0, 13],
        [210, TIZ, C, 1, 2, 1, 0, 13],
        [220, LNG, C, 1, 2, 1, 0, 13],
        [230, SER, C, 1, 2, 1, 0, 13],
        [240, IFT, C, 9, 2, 1, 0, 13],
        [250, NO_TAG, C, 99, 3, 1, 2, 13],
        [260, ASD, M, 1, 3, 2, 0, 24],
        [270, CON, C, 1, 3, 2, 0, 24],
        [280, NO_TAG, C, 99, 4, 1, 5, 13],
        [290, PRD, M, 1, 4, 2, 0, 27],
        [300, SER, C, 1, 4, 2, 0, 27],
        [310, FRQ, C, 1, 4, 2, 0, 27],
        [320, IFT, C, 1, 4, 2, 0, 27],
        [330, POR, C, 1, 4, 2, 0, 27],
        [340, NO_TAG, C, 99, 5, 1, 7, 13],
        [350, RFR, M, 1, 5, 2, 0, 33],
        [360, MES, C, 1, 5, 2, 0, 33],
        [370, RLS, C, 1, 5, 2, 0, 33],
        [380, NO_TAG, C, 99, 6, 2, 3, 33],
        [390, PRD, M, 1, 6, 3, 0, 37],
        [400, POP, C, 1, 6, 3, 0, 37],
        [410, SER, C, 1, 6, 3, 0, 37],
        [420, NO_TAG, C, 99, 7, 0, 6, 0],
        [430, NME, M, 1, 7, 1, 0, 41],
        [440, ADS, C, 1, 7, 1, 0, 41],
        [450, CON, C, 1, 7, 1, 0, 41],
        [460, NO_TAG, C, 99, 8, 1, 2, 41],
        [470, RFR, M, 1, 8, 2, 0, 45],
        [480, RLS, C, 1, 8, 2, 0, 45],
        [490, UIT, M, 1, 0, 0, 0, 0],
    ]
}

/// A type's own table among the rows of D.04A; of D.12B there is none.
pub fn table_of(tables: &[[u32; 8]], message: MessageType) -> &[[u32; 8]]
    ensures { result.now ≡ lent_in tables.now message }
{
    match message {
        MessageType::Skdupd => rows_between(tables, 0, 55),
        MessageType::Tsdupd => rows_between(tables, 55, 104),
        MessageType::Tsdupd12B => rows_between(tables, 0, 0),
    }
}

// The names of the calls of sedona_expr, geoparquet_bbox, sedona_wkb and scan_tariff, beside those of
// sedona_geometry.
use replay_geometry::names as geometry;

// A call, by what it is of.
#[derive(Clone, Copy)]
pub enum Call {
    Geometry(geometry::Call),
    Records(CallOfRecords),
    Tables(CallOfTables),
    Many(CallOfMany),
    Layouts(CallOfLayouts),
    Wkb(CallOfWkb),
    Tariff(CallOfTariff),
}

// The calls of records. A fold is of two, of one or of none.
#[derive(Clone, Copy)]
pub enum CallOfRecords {
    Unspecified,
    Empty,
    MergeValue,
    Merge,
    Fold,
    FoldOne,
    FoldNone,
}

// The calls over the tables of the lines before.
#[derive(Clone, Copy)]
pub enum CallOfTables {
    EvaluateByPosition,
    EvaluateByName,
    FilterBbox,
    FindName,
}

// The same over many columns, whose number, step and last name come last.
#[derive(Clone, Copy)]
pub enum CallOfMany {
    EvaluateByName,
    FindName,
}

// The calls of the two layouts. A box is eight ends and a flag, an array any number of numbers.
#[derive(Clone, Copy)]
pub enum CallOfLayouts {
    ToGeoparquet,
    FromGeoparquet,
}

// The call of well-known binary, in any number of words; in the second the first is how many bytes.
#[derive(Clone, Copy)]
pub enum CallOfWkb {
    Bounds,
    BoundsOfPadded,
}

// The calls of the tariff. The first three words are rates; a record follows, or any number of sizes, or
// how many sizes there are, one of them and the last.
#[derive(Clone, Copy)]
pub enum CallOfTariff {
    FeeOfRecord,
    FeeOfSizes,
    FeeOfSizesOfMany,
}

impl Call {
    // The call that a word names.
    pub fn named(word: &str) -> Option<Call> {
        let call = match word {
            "GeoStatistics::unspecified" => Call::Records(CallOfRecords::Unspecified),
            "GeoStatistics::empty" => Call::Records(CallOfRecords::Empty),
            "GeoStatistics::merge_value" => Call::Records(CallOfRecords::MergeValue),
            "GeoStatistics::merge" => Call::Records(CallOfRecords::Merge),
            "GeoStatistics::fold" => Call::Records(CallOfRecords::Fold),
            "GeoStatistics::fold_one" => Call::Records(CallOfRecords::FoldOne),
            "GeoStatistics::fold_none" => Call::Records(CallOfRecords::FoldNone),
            "SpatialFilter::evaluate_by_position" => Call::Tables(CallOfTables::EvaluateByPosition),
            "SpatialFilter::evaluate_by_name" => Call::Tables(CallOfTables::EvaluateByName),
            "SpatialFilter::filter_bbox" => Call::Tables(CallOfTables::FilterBbox),
            "sedona_expr::find_name" => Call::Tables(CallOfTables::FindName),
            "SpatialFilter::evaluate_by_name_of_many" => Call::Many(CallOfMany::EvaluateByName),
            "sedona_expr::find_name_of_many" => Call::Many(CallOfMany::FindName),
            "geoparquet_bbox::to_geoparquet" => Call::Layouts(CallOfLayouts::ToGeoparquet),
            "geoparquet_bbox::from_geoparquet" => Call::Layouts(CallOfLayouts::FromGeoparquet),
            "sedona_wkb::wkb_bounds" => Call::Wkb(CallOfWkb::Bounds),
            "sedona_wkb::wkb_bounds_of_padded" => Call::Wkb(CallOfWkb::BoundsOfPadded),
            "scan_tariff::fee_of_record" => Call::Tariff(CallOfTariff::FeeOfRecord),
            "scan_tariff::fee_of_sizes" => Call::Tariff(CallOfTariff::FeeOfSizes),
            "scan_tariff::fee_of_sizes_of_many" => Call::Tariff(CallOfTariff::FeeOfSizesOfMany),
            _ => Call::Geometry(geometry::Call::named(word)?),
        };
        Some(call)
    }
}

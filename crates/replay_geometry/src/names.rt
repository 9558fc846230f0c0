// The calls of sedona_geometry, by their names.

// A call, by what its operands are.
#[derive(Clone, Copy)]
pub enum Call {
    Doubles(CallOfDoubles),
    OneBox(CallOfBox),
    // `expand_by` of a box and a double.
    ExpandBox,
    TwoBoxes(CallOfBoxes),
    Sets(CallOfSets),
}

#[derive(Clone, Copy)]
pub enum CallOfDoubles {
    Interval(CallOfInterval),
    WraparoundInterval(CallOfWraparoundInterval),
    Float(CallOfFloat),
    // `xy` and `empty` of a box.
    Xy,
    EmptyBox,
}

// The calls of both interval types.
#[derive(Clone, Copy)]
pub enum CallOfInterval {
    New,
    Empty,
    Full,
    IsWraparound,
    IntersectsValue,
    IntersectsInterval,
    ContainsInterval,
    Width,
    Mid,
    IsEmpty,
    IsFull,
    MergeInterval,
    MergeValue,
    ExpandBy,
    Intersection,
}

// The calls of both, and those that only `WraparoundInterval` has.
#[derive(Clone, Copy)]
pub enum CallOfWraparoundInterval {
    OfBoth(CallOfInterval),
    Split,
    FromInterval,
    TryIntoInterval,
}

// The calls of float.rt.
#[derive(Clone, Copy)]
pub enum CallOfFloat {
    Min,
    Max,
    Abs,
    Infinity,
}

#[derive(Clone, Copy)]
pub enum CallOfBox {
    Xyzm,
    IsEmpty,
}

#[derive(Clone, Copy)]
pub enum CallOfBoxes {
    Intersects,
    Contains,
    MergeBox,
    UpdateBox,
    Intersection,
}

// The calls of `GeometryTypeAndDimensionsSet`.
#[derive(Clone, Copy)]
pub enum CallOfSets {
    New,
    FromBits,
    Bits,
    Merge,
    IsEmpty,
    Size,
    Clear,
}

impl Call {
    // The call that a word names.
    pub fn named(word: &str) -> Option<Call> {
        let (owner, name) = word.split_once("::")?;
        match owner {
            "Interval" => {
                let call = CallOfInterval::named(name)?;
                Some(Call::Doubles(CallOfDoubles::Interval(call)))
            }
            "WraparoundInterval" => {
                let call = CallOfWraparoundInterval::named(name)?;
                Some(Call::Doubles(CallOfDoubles::WraparoundInterval(call)))
            }
            "float" => {
                let call = CallOfFloat::named(name)?;
                Some(Call::Doubles(CallOfDoubles::Float(call)))
            }
            "BoundingBox" => Call::of_bounding_box(name),
            "GeometryTypeAndDimensionsSet" => Some(Call::Sets(CallOfSets::named(name)?)),
            _ => None,
        }
    }

    // The calls of `BoundingBox`.
    fn of_bounding_box(name: &str) -> Option<Call> {
        let call = match name {
            "xy" => Call::Doubles(CallOfDoubles::Xy),
            "xyzm" => Call::OneBox(CallOfBox::Xyzm),
            "empty" => Call::Doubles(CallOfDoubles::EmptyBox),
            "is_empty" => Call::OneBox(CallOfBox::IsEmpty),
            "intersects" => Call::TwoBoxes(CallOfBoxes::Intersects),
            "contains" => Call::TwoBoxes(CallOfBoxes::Contains),
            "expand_by" => Call::ExpandBox,
            "merge_box" => Call::TwoBoxes(CallOfBoxes::MergeBox),
            "update_box" => Call::TwoBoxes(CallOfBoxes::UpdateBox),
            "intersection" => Call::TwoBoxes(CallOfBoxes::Intersection),
            _ => return None,
        };
        Some(call)
    }
}

impl CallOfDoubles {
    // How many doubles it takes, four at most.
    pub fn operands(self) -> usize {
        match self {
            CallOfDoubles::Interval(call) => call.operands(),
            CallOfDoubles::WraparoundInterval(CallOfWraparoundInterval::OfBoth(call)) => {
                call.operands()
            }
            CallOfDoubles::WraparoundInterval(_) => 2,
            CallOfDoubles::Float(call) => call.operands(),
            CallOfDoubles::Xy => 4,
            CallOfDoubles::EmptyBox => 0,
        }
    }
}

impl CallOfInterval {
    fn named(name: &str) -> Option<CallOfInterval> {
        let call = match name {
            "new" => CallOfInterval::New,
            "empty" => CallOfInterval::Empty,
            "full" => CallOfInterval::Full,
            "is_wraparound" => CallOfInterval::IsWraparound,
            "intersects_value" => CallOfInterval::IntersectsValue,
            "intersects_interval" => CallOfInterval::IntersectsInterval,
            "contains_interval" => CallOfInterval::ContainsInterval,
            "width" => CallOfInterval::Width,
            "mid" => CallOfInterval::Mid,
            "is_empty" => CallOfInterval::IsEmpty,
            "is_full" => CallOfInterval::IsFull,
            "merge_interval" => CallOfInterval::MergeInterval,
            "merge_value" => CallOfInterval::MergeValue,
            "expand_by" => CallOfInterval::ExpandBy,
            "intersection" => CallOfInterval::Intersection,
            _ => return None,
        };
        Some(call)
    }

    // The ends of an interval come first, then a value or the other's ends.
    fn operands(self) -> usize {
        match self {
            CallOfInterval::Empty | CallOfInterval::Full => 0,
            CallOfInterval::IntersectsValue
            | CallOfInterval::MergeValue
            | CallOfInterval::ExpandBy => 3,
            CallOfInterval::IntersectsInterval
            | CallOfInterval::ContainsInterval
            | CallOfInterval::MergeInterval
            | CallOfInterval::Intersection => 4,
            _ => 2,
        }
    }
}

impl CallOfWraparoundInterval {
    fn named(name: &str) -> Option<CallOfWraparoundInterval> {
        match name {
            "split" => Some(CallOfWraparoundInterval::Split),
            "from_interval" => Some(CallOfWraparoundInterval::FromInterval),
            "try_into_interval" => Some(CallOfWraparoundInterval::TryIntoInterval),
            _ => Some(CallOfWraparoundInterval::OfBoth(CallOfInterval::named(name)?)),
        }
    }
}

impl CallOfFloat {
    fn named(name: &str) -> Option<CallOfFloat> {
        match name {
            "min" => Some(CallOfFloat::Min),
            "max" => Some(CallOfFloat::Max),
            "abs" => Some(CallOfFloat::Abs),
            "infinity" => Some(CallOfFloat::Infinity),
            _ => None,
        }
    }

    fn operands(self) -> usize {
        match self {
            CallOfFloat::Min | CallOfFloat::Max => 2,
            CallOfFloat::Abs => 1,
            CallOfFloat::Infinity => 0,
        }
    }
}

impl CallOfSets {
    fn named(name: &str) -> Option<CallOfSets> {
        match name {
            "new" => Some(CallOfSets::New),
            "from_bits" => Some(CallOfSets::FromBits),
            "bits" => Some(CallOfSets::Bits),
            "merge" => Some(CallOfSets::Merge),
            "is_empty" => Some(CallOfSets::IsEmpty),
            "size" => Some(CallOfSets::Size),
            "clear" => Some(CallOfSets::Clear),
            _ => None,
        }
    }

    // How many sets it takes, two at most.
    pub fn operands(self) -> usize {
        match self {
            CallOfSets::New => 0,
            CallOfSets::Merge => 2,
            _ => 1,
        }
    }
}

//! The fields of a request or of a record's line in JSON, by name.

/// A field of a request, or of a record's line, in JSON.
#[derive(Clone, Copy, Debug, PartialEq, Eq)]
pub enum Field {
    /// Who makes the request.
    Caller,
    /// The request's key, under which its reply is kept.
    Key,
    /// The name of the order.
    Order,
    /// The slug of an organisation.
    Org,
    /// The title of a product or an organisation.
    Title,
    /// The caller who becomes the keeper.
    Keeper,
    /// The address of a site.
    Site,
    /// A product ID.
    Number,
    /// The name of a licence.
    Licence,
    /// The address of the source files.
    Source,
    /// The number of a petition.
    Petition,
    /// The first product ID of a range.
    First,
    /// The last product ID of a range.
    Last,
    /// A vendor ID.
    Vendor,
    /// Why a curator revokes a number, or declines a petition.
    Reason,
    /// The name of a vendor.
    Name,
    /// The items of an import, in a record.
    Items,
    /// The reply to an accepted request, in a record.
    Done,
    /// The time of the request.
    At,
    /// The digest after the request, in a record.
    Digest,
}

impl Field {
    ghost use Rattle.std.specs.Prelude.{◌≡◌};
    ghost use Rattle.registry_wire.specs.Reading.{field_name};

    /// Returns the field's name in JSON.
    pub fn name(self) -> &'static str
        ensures { result.now ≡ field_name self }
    {
        match self {
            Field::Caller => "caller",
            Field::Key => "key",
            Field::Order => "order",
            Field::Org => "org",
            Field::Title => "title",
            Field::Keeper => "keeper",
            Field::Site => "site",
            Field::Number => "number",
            Field::Licence => "licence",
            Field::Source => "source",
            Field::Petition => "petition",
            Field::First => "first",
            Field::Last => "last",
            Field::Vendor => "vendor",
            Field::Reason => "reason",
            Field::Name => "name",
            Field::Items => "items",
            Field::Done => "done",
            Field::At => "at",
            Field::Digest => "digest",
        }
    }
}

//! A constant for each known name.
use super::Known;
use crate::attribute_name::AttributeName;
use crate::element_name::ElementName;

impl Known {
    pub const A: Known = Known::Element(ElementName::A);

    pub const ADDRESS: Known = Known::Element(ElementName::Address);

    pub const ALT_GLYPH: Known = Known::Element(ElementName::AltGlyph);

    pub const ALT_GLYPH_DEF: Known = Known::Element(ElementName::AltGlyphDef);

    pub const ALT_GLYPH_ITEM: Known = Known::Element(ElementName::AltGlyphItem);

    pub const ANIMATE_COLOR: Known = Known::Element(ElementName::AnimateColor);

    pub const ANIMATE_MOTION: Known = Known::Element(ElementName::AnimateMotion);

    pub const ANIMATE_TRANSFORM: Known = Known::Element(ElementName::AnimateTransform);

    pub const ANNOTATION_XML: Known = Known::Element(ElementName::AnnotationXml);

    pub const APPLET: Known = Known::Element(ElementName::Applet);

    pub const AREA: Known = Known::Element(ElementName::Area);

    pub const ARTICLE: Known = Known::Element(ElementName::Article);

    pub const ASIDE: Known = Known::Element(ElementName::Aside);

    pub const B: Known = Known::Element(ElementName::B);

    pub const BASE: Known = Known::Element(ElementName::Base);

    pub const BASEFONT: Known = Known::Element(ElementName::Basefont);

    pub const BGSOUND: Known = Known::Element(ElementName::Bgsound);

    pub const BIG: Known = Known::Element(ElementName::Big);

    pub const BLOCKQUOTE: Known = Known::Element(ElementName::Blockquote);

    pub const BODY: Known = Known::Element(ElementName::Body);

    pub const BR: Known = Known::Element(ElementName::Br);

    pub const BUTTON: Known = Known::Element(ElementName::Button);

    pub const CAPTION: Known = Known::Element(ElementName::Caption);

    pub const CENTER: Known = Known::Element(ElementName::Center);

    pub const CLIP_PATH: Known = Known::Element(ElementName::ClipPath);

    pub const CODE: Known = Known::Element(ElementName::Code);

    pub const COL: Known = Known::Element(ElementName::Col);

    pub const COLGROUP: Known = Known::Element(ElementName::Colgroup);

    pub const DD: Known = Known::Element(ElementName::Dd);

    pub const DESC: Known = Known::Element(ElementName::Desc);

    pub const DETAILS: Known = Known::Element(ElementName::Details);

    pub const DIALOG: Known = Known::Element(ElementName::Dialog);

    pub const DIR: Known = Known::Element(ElementName::Dir);

    pub const DIV: Known = Known::Element(ElementName::Div);

    pub const DL: Known = Known::Element(ElementName::Dl);

    pub const DT: Known = Known::Element(ElementName::Dt);

    pub const EM: Known = Known::Element(ElementName::Em);

    pub const EMBED: Known = Known::Element(ElementName::Embed);

    pub const FE_BLEND: Known = Known::Element(ElementName::FeBlend);

    pub const FE_COLOR_MATRIX: Known = Known::Element(ElementName::FeColorMatrix);

    pub const FE_COMPONENT_TRANSFER: Known = Known::Element(ElementName::FeComponentTransfer);

    pub const FE_COMPOSITE: Known = Known::Element(ElementName::FeComposite);

    pub const FE_CONVOLVE_MATRIX: Known = Known::Element(ElementName::FeConvolveMatrix);

    pub const FE_DIFFUSE_LIGHTING: Known = Known::Element(ElementName::FeDiffuseLighting);

    pub const FE_DISPLACEMENT_MAP: Known = Known::Element(ElementName::FeDisplacementMap);

    pub const FE_DISTANT_LIGHT: Known = Known::Element(ElementName::FeDistantLight);

    pub const FE_DROP_SHADOW: Known = Known::Element(ElementName::FeDropShadow);

    pub const FE_FLOOD: Known = Known::Element(ElementName::FeFlood);

    pub const FE_FUNC_A: Known = Known::Element(ElementName::FeFuncA);

    pub const FE_FUNC_B: Known = Known::Element(ElementName::FeFuncB);

    pub const FE_FUNC_G: Known = Known::Element(ElementName::FeFuncG);

    pub const FE_FUNC_R: Known = Known::Element(ElementName::FeFuncR);

    pub const FE_GAUSSIAN_BLUR: Known = Known::Element(ElementName::FeGaussianBlur);

    pub const FE_IMAGE: Known = Known::Element(ElementName::FeImage);

    pub const FE_MERGE: Known = Known::Element(ElementName::FeMerge);

    pub const FE_MERGE_NODE: Known = Known::Element(ElementName::FeMergeNode);

    pub const FE_MORPHOLOGY: Known = Known::Element(ElementName::FeMorphology);

    pub const FE_OFFSET: Known = Known::Element(ElementName::FeOffset);

    pub const FE_POINT_LIGHT: Known = Known::Element(ElementName::FePointLight);

    pub const FE_SPECULAR_LIGHTING: Known = Known::Element(ElementName::FeSpecularLighting);

    pub const FE_SPOT_LIGHT: Known = Known::Element(ElementName::FeSpotLight);

    pub const FE_TILE: Known = Known::Element(ElementName::FeTile);

    pub const FE_TURBULENCE: Known = Known::Element(ElementName::FeTurbulence);

    pub const FIELDSET: Known = Known::Element(ElementName::Fieldset);

    pub const FIGCAPTION: Known = Known::Element(ElementName::Figcaption);

    pub const FIGURE: Known = Known::Element(ElementName::Figure);

    pub const FONT: Known = Known::Element(ElementName::Font);

    pub const FOOTER: Known = Known::Element(ElementName::Footer);

    pub const FOREIGN_OBJECT: Known = Known::Element(ElementName::ForeignObject);

    pub const FORM: Known = Known::Element(ElementName::Form);

    pub const FRAME: Known = Known::Element(ElementName::Frame);

    pub const FRAMESET: Known = Known::Element(ElementName::Frameset);

    pub const GLYPH_REF: Known = Known::Element(ElementName::GlyphRef);

    pub const H1: Known = Known::Element(ElementName::H1);

    pub const H2: Known = Known::Element(ElementName::H2);

    pub const H3: Known = Known::Element(ElementName::H3);

    pub const H4: Known = Known::Element(ElementName::H4);

    pub const H5: Known = Known::Element(ElementName::H5);

    pub const H6: Known = Known::Element(ElementName::H6);

    pub const HEAD: Known = Known::Element(ElementName::Head);

    pub const HEADER: Known = Known::Element(ElementName::Header);

    pub const HGROUP: Known = Known::Element(ElementName::Hgroup);

    pub const HR: Known = Known::Element(ElementName::Hr);

    pub const HTML: Known = Known::Element(ElementName::Html);

    pub const I: Known = Known::Element(ElementName::I);

    pub const IFRAME: Known = Known::Element(ElementName::Iframe);

    pub const IMAGE: Known = Known::Element(ElementName::Image);

    pub const IMG: Known = Known::Element(ElementName::Img);

    pub const INPUT: Known = Known::Element(ElementName::Input);

    pub const KEYGEN: Known = Known::Element(ElementName::Keygen);

    pub const LI: Known = Known::Element(ElementName::Li);

    pub const LINEAR_GRADIENT: Known = Known::Element(ElementName::LinearGradient);

    pub const LINK: Known = Known::Element(ElementName::Link);

    pub const LISTING: Known = Known::Element(ElementName::Listing);

    pub const MAIN: Known = Known::Element(ElementName::Main);

    pub const MALIGNMARK: Known = Known::Element(ElementName::Malignmark);

    pub const MARQUEE: Known = Known::Element(ElementName::Marquee);

    pub const MATH: Known = Known::Element(ElementName::Math);

    pub const MENU: Known = Known::Element(ElementName::Menu);

    pub const META: Known = Known::Element(ElementName::Meta);

    pub const MGLYPH: Known = Known::Element(ElementName::Mglyph);

    pub const MI: Known = Known::Element(ElementName::Mi);

    pub const MN: Known = Known::Element(ElementName::Mn);

    pub const MO: Known = Known::Element(ElementName::Mo);

    pub const MS: Known = Known::Element(ElementName::Ms);

    pub const MTEXT: Known = Known::Element(ElementName::Mtext);

    pub const NAV: Known = Known::Element(ElementName::Nav);

    pub const NOBR: Known = Known::Element(ElementName::Nobr);

    pub const NOEMBED: Known = Known::Element(ElementName::Noembed);

    pub const NOFRAMES: Known = Known::Element(ElementName::Noframes);

    pub const NOSCRIPT: Known = Known::Element(ElementName::Noscript);

    pub const OBJECT: Known = Known::Element(ElementName::Object);

    pub const OL: Known = Known::Element(ElementName::Ol);

    pub const OPTGROUP: Known = Known::Element(ElementName::Optgroup);

    pub const OPTION: Known = Known::Element(ElementName::Option);

    pub const P: Known = Known::Element(ElementName::P);

    pub const PARAM: Known = Known::Element(ElementName::Param);

    pub const PLAINTEXT: Known = Known::Element(ElementName::Plaintext);

    pub const PRE: Known = Known::Element(ElementName::Pre);

    pub const RADIAL_GRADIENT: Known = Known::Element(ElementName::RadialGradient);

    pub const RB: Known = Known::Element(ElementName::Rb);

    pub const RP: Known = Known::Element(ElementName::Rp);

    pub const RT: Known = Known::Element(ElementName::Rt);

    pub const RTC: Known = Known::Element(ElementName::Rtc);

    pub const RUBY: Known = Known::Element(ElementName::Ruby);

    pub const S: Known = Known::Element(ElementName::S);

    pub const SCRIPT: Known = Known::Element(ElementName::Script);

    pub const SEARCH: Known = Known::Element(ElementName::Search);

    pub const SECTION: Known = Known::Element(ElementName::Section);

    pub const SELECT: Known = Known::Element(ElementName::Select);

    pub const SMALL: Known = Known::Element(ElementName::Small);

    pub const SOURCE: Known = Known::Element(ElementName::Source);

    pub const SPAN: Known = Known::Element(ElementName::Span);

    pub const STRIKE: Known = Known::Element(ElementName::Strike);

    pub const STRONG: Known = Known::Element(ElementName::Strong);

    pub const STYLE: Known = Known::Element(ElementName::Style);

    pub const SUB: Known = Known::Element(ElementName::Sub);

    pub const SUMMARY: Known = Known::Element(ElementName::Summary);

    pub const SUP: Known = Known::Element(ElementName::Sup);

    pub const SVG: Known = Known::Element(ElementName::Svg);

    pub const TABLE: Known = Known::Element(ElementName::Table);

    pub const TBODY: Known = Known::Element(ElementName::Tbody);

    pub const TD: Known = Known::Element(ElementName::Td);

    pub const TEMPLATE: Known = Known::Element(ElementName::Template);

    pub const TEXT_PATH: Known = Known::Element(ElementName::TextPath);

    pub const TEXTAREA: Known = Known::Element(ElementName::Textarea);

    pub const TFOOT: Known = Known::Element(ElementName::Tfoot);

    pub const TH: Known = Known::Element(ElementName::Th);

    pub const THEAD: Known = Known::Element(ElementName::Thead);

    pub const TITLE: Known = Known::Element(ElementName::Title);

    pub const TR: Known = Known::Element(ElementName::Tr);

    pub const TRACK: Known = Known::Element(ElementName::Track);

    pub const TT: Known = Known::Element(ElementName::Tt);

    pub const U: Known = Known::Element(ElementName::U);

    pub const UL: Known = Known::Element(ElementName::Ul);

    pub const VAR: Known = Known::Element(ElementName::Var);

    pub const WBR: Known = Known::Element(ElementName::Wbr);

    pub const XMP: Known = Known::Element(ElementName::Xmp);

    pub const ACTUATE: Known = Known::Attribute(AttributeName::Actuate);

    pub const ARCROLE: Known = Known::Attribute(AttributeName::Arcrole);

    pub const ATTRIBUTE_NAME: Known = Known::Attribute(AttributeName::AttributeName);

    pub const ATTRIBUTE_TYPE: Known = Known::Attribute(AttributeName::AttributeType);

    pub const BASE_FREQUENCY: Known = Known::Attribute(AttributeName::BaseFrequency);

    pub const BASE_PROFILE: Known = Known::Attribute(AttributeName::BaseProfile);

    pub const CALC_MODE: Known = Known::Attribute(AttributeName::CalcMode);

    pub const CLIP_PATH_UNITS: Known = Known::Attribute(AttributeName::ClipPathUnits);

    pub const COLOR: Known = Known::Attribute(AttributeName::Color);

    pub const DEFINITION_URL: Known = Known::Attribute(AttributeName::DefinitionUrl);

    pub const DIFFUSE_CONSTANT: Known = Known::Attribute(AttributeName::DiffuseConstant);

    pub const EDGE_MODE: Known = Known::Attribute(AttributeName::EdgeMode);

    pub const ENCODING: Known = Known::Attribute(AttributeName::Encoding);

    pub const FACE: Known = Known::Attribute(AttributeName::Face);

    pub const FILTER_UNITS: Known = Known::Attribute(AttributeName::FilterUnits);

    pub const GRADIENT_TRANSFORM: Known = Known::Attribute(AttributeName::GradientTransform);

    pub const GRADIENT_UNITS: Known = Known::Attribute(AttributeName::GradientUnits);

    pub const HREF: Known = Known::Attribute(AttributeName::Href);

    pub const KERNEL_MATRIX: Known = Known::Attribute(AttributeName::KernelMatrix);

    pub const KERNEL_UNIT_LENGTH: Known = Known::Attribute(AttributeName::KernelUnitLength);

    pub const KEY_POINTS: Known = Known::Attribute(AttributeName::KeyPoints);

    pub const KEY_SPLINES: Known = Known::Attribute(AttributeName::KeySplines);

    pub const KEY_TIMES: Known = Known::Attribute(AttributeName::KeyTimes);

    pub const LANG: Known = Known::Attribute(AttributeName::Lang);

    pub const LENGTH_ADJUST: Known = Known::Attribute(AttributeName::LengthAdjust);

    pub const LIMITING_CONE_ANGLE: Known = Known::Attribute(AttributeName::LimitingConeAngle);

    pub const MARKER_HEIGHT: Known = Known::Attribute(AttributeName::MarkerHeight);

    pub const MARKER_UNITS: Known = Known::Attribute(AttributeName::MarkerUnits);

    pub const MARKER_WIDTH: Known = Known::Attribute(AttributeName::MarkerWidth);

    pub const MASK_CONTENT_UNITS: Known = Known::Attribute(AttributeName::MaskContentUnits);

    pub const MASK_UNITS: Known = Known::Attribute(AttributeName::MaskUnits);

    pub const NUM_OCTAVES: Known = Known::Attribute(AttributeName::NumOctaves);

    pub const PATH_LENGTH: Known = Known::Attribute(AttributeName::PathLength);

    pub const PATTERN_CONTENT_UNITS: Known = Known::Attribute(AttributeName::PatternContentUnits);

    pub const PATTERN_TRANSFORM: Known = Known::Attribute(AttributeName::PatternTransform);

    pub const PATTERN_UNITS: Known = Known::Attribute(AttributeName::PatternUnits);

    pub const POINTS_AT_X: Known = Known::Attribute(AttributeName::PointsAtX);

    pub const POINTS_AT_Y: Known = Known::Attribute(AttributeName::PointsAtY);

    pub const POINTS_AT_Z: Known = Known::Attribute(AttributeName::PointsAtZ);

    pub const PRESERVE_ALPHA: Known = Known::Attribute(AttributeName::PreserveAlpha);

    pub const PRESERVE_ASPECT_RATIO: Known = Known::Attribute(AttributeName::PreserveAspectRatio);

    pub const PRIMITIVE_UNITS: Known = Known::Attribute(AttributeName::PrimitiveUnits);

    pub const REF_X: Known = Known::Attribute(AttributeName::RefX);

    pub const REF_Y: Known = Known::Attribute(AttributeName::RefY);

    pub const REPEAT_COUNT: Known = Known::Attribute(AttributeName::RepeatCount);

    pub const REPEAT_DUR: Known = Known::Attribute(AttributeName::RepeatDur);

    pub const REQUIRED_EXTENSIONS: Known = Known::Attribute(AttributeName::RequiredExtensions);

    pub const REQUIRED_FEATURES: Known = Known::Attribute(AttributeName::RequiredFeatures);

    pub const ROLE: Known = Known::Attribute(AttributeName::Role);

    pub const SHOW: Known = Known::Attribute(AttributeName::Show);

    pub const SIZE: Known = Known::Attribute(AttributeName::Size);

    pub const SPACE: Known = Known::Attribute(AttributeName::Space);

    pub const SPECULAR_CONSTANT: Known = Known::Attribute(AttributeName::SpecularConstant);

    pub const SPECULAR_EXPONENT: Known = Known::Attribute(AttributeName::SpecularExponent);

    pub const SPREAD_METHOD: Known = Known::Attribute(AttributeName::SpreadMethod);

    pub const START_OFFSET: Known = Known::Attribute(AttributeName::StartOffset);

    pub const STD_DEVIATION: Known = Known::Attribute(AttributeName::StdDeviation);

    pub const STITCH_TILES: Known = Known::Attribute(AttributeName::StitchTiles);

    pub const SURFACE_SCALE: Known = Known::Attribute(AttributeName::SurfaceScale);

    pub const SYSTEM_LANGUAGE: Known = Known::Attribute(AttributeName::SystemLanguage);

    pub const TABLE_VALUES: Known = Known::Attribute(AttributeName::TableValues);

    pub const TARGET_X: Known = Known::Attribute(AttributeName::TargetX);

    pub const TARGET_Y: Known = Known::Attribute(AttributeName::TargetY);

    pub const TEXT_LENGTH: Known = Known::Attribute(AttributeName::TextLength);

    pub const TYPE: Known = Known::Attribute(AttributeName::Type_);

    pub const VIEW_BOX: Known = Known::Attribute(AttributeName::ViewBox);

    pub const VIEW_TARGET: Known = Known::Attribute(AttributeName::ViewTarget);

    pub const XCHANNEL_SELECTOR: Known = Known::Attribute(AttributeName::XChannelSelector);

    pub const XLINK: Known = Known::Attribute(AttributeName::Xlink);

    pub const XLINK_ACTUATE: Known = Known::Attribute(AttributeName::XlinkActuate);

    pub const XLINK_ARCROLE: Known = Known::Attribute(AttributeName::XlinkArcrole);

    pub const XLINK_HREF: Known = Known::Attribute(AttributeName::XlinkHref);

    pub const XLINK_ROLE: Known = Known::Attribute(AttributeName::XlinkRole);

    pub const XLINK_SHOW: Known = Known::Attribute(AttributeName::XlinkShow);

    pub const XLINK_TITLE: Known = Known::Attribute(AttributeName::XlinkTitle);

    pub const XLINK_TYPE: Known = Known::Attribute(AttributeName::XlinkType);

    pub const XML_LANG: Known = Known::Attribute(AttributeName::XmlLang);

    pub const XML_SPACE: Known = Known::Attribute(AttributeName::XmlSpace);

    pub const XMLNS: Known = Known::Attribute(AttributeName::Xmlns);

    pub const XMLNS_XLINK: Known = Known::Attribute(AttributeName::XmlnsXlink);

    pub const YCHANNEL_SELECTOR: Known = Known::Attribute(AttributeName::YChannelSelector);

    pub const ZOOM_AND_PAN: Known = Known::Attribute(AttributeName::ZoomAndPan);
}
